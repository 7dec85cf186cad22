//! A law of the loop.

ghost use Rattle.nut_server_loop.specs.Offered.{AnswersAreOffered};

/// States a law and does nothing when called: the answers to an arrival are offered before the next one is asked for. Between
/// two arrivals each client and each driver took as many bytes as waited for it after the first, or a write to it was to
/// come later, or it was closed.
pub fn answers_are_offered()
    ensures { AnswersAreOffered }
{}
