//! Worked examples. The prover computes them from the definitions, so they show what the definitions mean.
ghost use Rattle.std.specs.Prelude.{◌≡◌, [], ◌∷◌, Ok, Err, Some, None, codes, true};
ghost use Rattle.nut_proto.specs.Answers.{answer_in};
ghost use Rattle.nut_proto.specs.DriverAsks.{ask_line, ask_of};
ghost use Rattle.nut_proto.specs.Forms.{meaning};
ghost use Rattle.nut_proto.specs.Replies.{reply_line};
ghost use Rattle.nut_proto.specs.Requests.{begin_line, end_line, request_line};
ghost use Rattle.nut_proto.specs.declared.answer.Answer.TheVariants as answers;
ghost use Rattle.nut_proto.specs.declared.answer.AnswerFault.TheVariants as faults;
ghost use Rattle.nut_proto.specs.declared.driver_ask.DriverAsk.TheVariants as asks;
ghost use Rattle.nut_proto.specs.declared.refusal.Refusal.TheVariants as refusals;
ghost use Rattle.nut_proto.specs.declared.reply.Reply.TheVariants as replies;
ghost use Rattle.nut_proto.specs.declared.reply.VariableKind.TheVariants as kinds;
ghost use Rattle.nut_proto.specs.declared.tracking.TrackingStatus.TheVariants as statuses;
ghost use Rattle.nut_proto.specs.declared.request.ListQuery.TheVariants as queries;
ghost use Rattle.nut_proto.specs.declared.request.Request.TheVariants as requests;

/// States worked examples and does nothing when called: what some lines mean, and how some messages are written.
#[tactic(auto, unfolding(nut_words::specs::Reader::read, crate::specs::Answers::answer_of, crate::specs::DriverAsks::ask_line, crate::specs::DriverAsks::ask_of, crate::specs::Forms::meaning, crate::specs::Keywords::command_of, crate::specs::Lines::line, crate::specs::Refusals::refusal_name, crate::specs::Replies::reply_line, crate::specs::Requests::begin_line, crate::specs::Requests::end_line, crate::specs::Requests::request_line))]
pub fn worked_examples()
    // The case of command words doesn't matter; the case of names does.
    ensures mixed_case { meaning (codes "Get" ∷ codes "var" ∷ codes "Su700" ∷ codes "ups.Status" ∷ [])
        ≡ Ok (requests.GetVar (codes "Su700") (codes "ups.Status")) }
    ensures too_short { meaning (codes "GET" ∷ codes "VAR" ∷ codes "su700" ∷ []) ≡ Err refusals.InvalidArgument }
    ensures too_long { meaning (codes "VER" ∷ codes "x" ∷ []) ≡ Err refusals.InvalidArgument }
    ensures no_form { meaning (codes "LIST" ∷ codes "DESC" ∷ codes "su700" ∷ []) ≡ Err refusals.InvalidArgument }
    ensures no_words { meaning [] ≡ Err refusals.InvalidArgument }
    ensures no_command { meaning (codes "FOO" ∷ []) ≡ Err refusals.UnknownCommand }

    ensures setting { request_line (requests.SetVar (codes "su700") (codes "ups.id") (codes "a"))
        ≡ codes "SET VAR su700 ups.id \"a\"\n" }
    ensures value { reply_line (replies.Var (codes "su700") (codes "ups.mfr") (codes "a \"b\" \\c"))
        ≡ codes "VAR su700 ups.mfr \"a \\\"b\\\" \\\\c\"\n" }
    ensures kind { reply_line (replies.Type (codes "su700") (codes "ups.id") true (kinds.String 3))
        ≡ codes "TYPE su700 ups.id RW STRING:3\n" }
    ensures refused { reply_line (replies.Refused refusals.DataStale) ≡ codes "ERR DATA-STALE\n" }
    ensures begin_of_list { begin_line (queries.Var (codes "su700")) ≡ codes "BEGIN LIST VAR su700\n" }
    ensures end_of_list { end_line (queries.Var (codes "su700")) ≡ codes "END LIST VAR su700\n" }

    // The words ON and OFF have no case either; a number has no 0 before it.
    ensures switched { meaning (codes "set" ∷ codes "tracking" ∷ codes "On" ∷ []) ≡ Ok (requests.SetTracking true) }
    ensures not_switched { meaning (codes "SET" ∷ codes "TRACKING" ∷ codes "YES" ∷ []) ≡ Err refusals.InvalidArgument }
    ensures tracked { meaning (codes "GET" ∷ codes "TRACKING" ∷ codes "12" ∷ []) ≡ Ok (requests.GetTrackingOf 12) }
    ensures not_tracked { meaning (codes "GET" ∷ codes "TRACKING" ∷ codes "012" ∷ []) ≡ Err refusals.InvalidArgument }
    ensures numbered { reply_line (replies.AcceptedAs 12) ≡ codes "OK TRACKING 12\n" }
    ensures ended { reply_line (replies.Tracking 12 statuses.Failed) ≡ codes "TRACKING 12 FAILED\n" }

    ensures success { answer_in (codes "OK FSD-SET") ≡ Ok (answers.Ok (codes "FSD-SET" ∷ [])) }
    ensures error { answer_in (codes "ERR DATA-STALE now") ≡ Ok (answers.Err (codes "DATA-STALE")) }
    ensures row { answer_in (codes "ok") ≡ Ok (answers.Row (codes "ok" ∷ [])) }
    ensures unreadable { answer_in (codes "OK \"") ≡ Err faults.Unreadable }
    ensures empty { answer_in (codes " # OK") ≡ Err faults.Empty }

    ensures asked { ask_line (asks.Set (codes "ups.id") (codes "abc") None) ≡ codes "SET ups.id \"abc\"\n" }
    ensures asked_as { ask_line (asks.InstCmd (codes "load.off") (Some (codes "5")) (Some 12))
        ≡ codes "INSTCMD load.off \"5\" TRACKING 12\n" }
    ensures parameter { ask_of (codes "INSTCMD" ∷ codes "load.off" ∷ codes "5" ∷ [])
        ≡ Some (asks.InstCmd (codes "load.off") (Some (codes "5")) None) }
    ensures number { ask_of (codes "INSTCMD" ∷ codes "load.off" ∷ codes "tracking" ∷ codes "5" ∷ [])
        ≡ Some (asks.InstCmd (codes "load.off") None (Some 5)) }
    ensures understood { ask_of (codes "dumpall" ∷ []) ≡ Some asks.DumpAll }
    ensures not_understood { ask_of (codes "PING" ∷ codes "x" ∷ []) ≡ None }
{}
