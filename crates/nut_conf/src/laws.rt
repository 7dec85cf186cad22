//! Laws that hold of every file, stated over the definitions alone.
ghost use Rattle.std.specs.Prelude.{◌≡◌, ℕ, List, [], Ok, Err};
ghost use Rattle.nut_conf.specs.Values.{Words};
ghost use Rattle.nut_conf.specs.laws.FirstFault.{IsFirstFault};
ghost use Rattle.nut_conf.specs.Files.{LineFault, read_file, read_lines};
ghost use Rattle.nut_conf.specs.laws.Laws.{BlankChangesNothing, EachKeepsRule, HasDistinctNames, KeepRule};
ghost use Rattle.nut_conf.specs.Sections.{sections};
ghost use Rattle.nut_conf.specs.Settings.{settings};
ghost use Rattle.nut_conf.specs.Descriptions.{description_row, descriptions_fault};
ghost use Rattle.nut_conf.specs.Ups.{ups_row, ups_fault};
ghost use Rattle.nut_conf.specs.Upsd.{upsd_row, upsd_fault};
ghost use Rattle.nut_conf.specs.Upsmon.{upsmon_row, upsmon_fault};
ghost use Rattle.nut_conf.specs.Users.{user_row, users_fault};
ghost use Rattle.nut_conf.specs.declared.descriptions.DescriptionDirective.{DescriptionDirective};
ghost use Rattle.nut_conf.specs.declared.ups.UpsDirective.{UpsDirective};
ghost use Rattle.nut_conf.specs.declared.upsd.UpsdDirective.{UpsdDirective};
ghost use Rattle.nut_conf.specs.declared.upsmon.UpsmonDirective.{UpsmonDirective};
ghost use Rattle.nut_conf.specs.declared.users.UserDirective.{UserDirective};
ghost use Rattle.nut_conf.specs.declared.fault.FaultKind.{FaultKind};

/// States a law and does nothing when called: the fault that reading reports is that of the first line with a fault.
pub fn first_fault()
    ensures { (fault : LineFault) (lines : List (List ℕ)) (n : ℕ) (k : FaultKind)
        → read_lines fault [] 1 lines ≡ Err (n, k) → IsFirstFault fault lines n k }
{}

/// States a law and does nothing when called: a line without words changes only the numbers of the lines after it.
pub fn blank_lines_change_nothing()
    ensures { (fault : LineFault) → BlankChangesNothing fault }
{}

/// States a law and does nothing when called: in a file that reads without a fault, all UPSes have different names, and
/// so have all users.
pub fn names_are_distinct()
    ensures ups { (file : List ℕ) (lines : List Words) → read_file ups_fault file ≡ Ok lines → HasDistinctNames (sections lines) }
    ensures users { (file : List ℕ) (lines : List Words) → read_file users_fault file ≡ Ok lines → HasDistinctNames (sections lines) }
{}

/// States a law and does nothing when called: in a file that reads without a fault, each directive is set at most as
/// often as it may be. The file has at most as many endpoints, `instcmds` of a user, targets and descriptions as `limits`
/// says. Each target stands once, each type of notice has at most one text and one line of flags, and each name one
/// description.
pub fn rules_are_kept()
    ensures ups { (file : List ℕ) (lines : List Words) → read_file ups_fault file ≡ Ok lines
        → (d : UpsDirective) → EachKeepsRule (ups_row d).directive (sections lines) }
    ensures users { (file : List ℕ) (lines : List Words) → read_file users_fault file ≡ Ok lines
        → (d : UserDirective) → EachKeepsRule (user_row d).directive (sections lines) }
    ensures upsd { (file : List ℕ) (lines : List Words) → read_file upsd_fault file ≡ Ok lines
        → (d : UpsdDirective) → KeepRule (upsd_row d).directive.rule (settings (upsd_row d).directive lines) }
    ensures upsmon { (file : List ℕ) (lines : List Words) → read_file upsmon_fault file ≡ Ok lines
        → (d : UpsmonDirective) → KeepRule (upsmon_row d).directive.rule (settings (upsmon_row d).directive lines) }
    ensures descriptions { (file : List ℕ) (lines : List Words) → read_file descriptions_fault file ≡ Ok lines
        → (d : DescriptionDirective) → KeepRule (description_row d).directive.rule (settings (description_row d).directive lines) }
{}
