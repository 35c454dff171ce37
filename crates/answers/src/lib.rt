//! Answers that say no: refusals, and lines that are no calls. docs/SCRIPT.md has the language in words.

#![tactic(auto)]

ghost use Rattle.std.specs.Prelude.{OnOk, string_bytes};
ghost use Rattle.answers.specs.Refusing.{case_text, bad_text, NumbersBack};
ghost use Rattle.print.specs.Laws.{NumberBack};
ghost use Rattle.print.specs.Printing.{Adds};

use refusal::Case;
use spelling::bad::Bad;
use std::alloc::AllocError;

/// A refusal: its number, its layer and its field, how many numbers had been taken where it has that, and then the
/// same in words.
pub fn case(out: &mut String, case: Case) -> Result<(), AllocError>
    ensures added { Adds result (case_text case) (string_bytes out.old) (string_bytes out.new) }
    ensures numbers_read_back { OnOk result (NumbersBack case) }
{
    let Case {
        refusal,
        layer,
        field,
        taken,
    } = case;
    write!(out, "refused {} {layer} {}", refusal.number(), field.0)?;
    if let Some(n) = taken {
        write!(out, " taken {n}")?;
    }
    write!(out, " -- {refusal}")
}

/// That a line is no call, with its number and the reason.
pub fn bad_line(out: &mut String, line: u64, bad: Bad) -> Result<(), AllocError>
    ensures added { Adds result (bad_text line bad) (string_bytes out.old) (string_bytes out.new) }
    ensures line_reads_back { NumberBack line }
{
    write!(out, "bad line {line}: {bad}")
}
