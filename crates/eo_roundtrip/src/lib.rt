//! A value that is shown reads back as it is.
#![tactic(auto)]

ghost use Rattle.std.specs.Prelude.{◌≡◌, ℕ, List, Ok};
ghost use Rattle.eo_io.specs.Library.{Files};
ghost use Rattle.eo_names.specs.Contexts.{Several};
ghost use Rattle.eo_run.specs.Run.{Progress, run_check, run_load};
ghost use Rattle.eo_run.specs.declared.CheckJob.{CheckJob};
ghost use Rattle.eo_session.specs.State.{State};
ghost use Rattle.eo_roundtrip.specs.Shown.{IsNamed, ShowsBack, ValuesShowBack};

use eo_eval::values_law;
use eo_sexp::printed_law;
use eo_show::lines_law;
use eo_sound::commands_law;

/// A law: the lines that show a value read back as it. They are read as commands; these are
/// accepted, one after another; and then the name of the last of them means a tree that
/// evaluates to the value.
///
/// That holds in each state in which a name may have several constants, and whose constants have
/// names that can be read and printed. Each file that is loaded ends in such a state, and so does
/// each check.
///
/// Each value that a name has at the end of a file is within the limits of height, of numbers, bit
/// strings and characters. So it reads back where each part of it has a spelling and its lines, with
/// the declarations and macros of the file, are fewer than 2^64.
pub fn shown_law()
    ensures state { (st : State) → st.naming ≡ Several → IsNamed st.signature → ShowsBack st }
    ensures load { (files : Files) (name : List ℕ) (final : Progress) → run_load files name ≡ Ok final → ShowsBack final.state }
    ensures load_values { (files : Files) (name : List ℕ) (final : Progress) → run_load files name ≡ Ok final →
        ValuesShowBack final.state }
    ensures load_names { (files : Files) (name : List ℕ) (final : Progress) → run_load files name ≡ Ok final →
        IsNamed final.state.signature }
    ensures check_names { (files : Files) (job : CheckJob) (final : Progress) → run_check files job ≡ Ok final →
        IsNamed final.state.signature }
{
    printed_law();
    lines_law();
    values_law();
    commands_law();
}
