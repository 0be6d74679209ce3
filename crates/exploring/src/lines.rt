//! The lines of the output for programs.
ghost use Rattle.std.specs.Prelude.{◌≡◌, ◌++◌, IfOk, OnOk, flat_map, option_map, string_bytes};
ghost use Rattle.std.specs.Io.KnownBytes.{Appends};
ghost use Rattle.judging.specs.Codes.{code_of as found_code};
ghost use Rattle.progress.specs.Reports.{report_seen};
ghost use Rattle.run.specs.Refusals.{code_of};
ghost use Rattle.exploring.specs.Lines.{Written, accepted_line, answer_line, byte_text, refusal_line, report_line, state_line};

use console::Failed;
use judging::Judgement;
use progress::Report;
use run::{Answer, Refusal};
use std::alloc::{AllocError, Global};
use std::io::{self, Write};

/// Writes the line of a judged state.
pub fn write_state<W: Write>(
    out: &mut W,
    point: usize,
    rank: u64,
    found: Judgement,
) -> io::Result<()>
    ensures { OnOk result (Appends (W.Write.contents out.old) (W.Write.contents out.new) (state_line point rank (found_code found))) }
{
    let (outcome, node) = found.code();
    writeln!(out, "{point} {rank} {outcome} {node}")
}

/// Writes the line of a report.
pub fn write_report<W: Write>(out: &mut W, report: &Report) -> io::Result<()>
    ensures { OnOk result (Appends (W.Write.contents out.old) (W.Write.contents out.new) (report_line (report_seen report.now))) }
{
    let verdict = report.verdict.code();
    let Report {
        verdict: _,
        judged,
        unsafe_judged,
        forgone,
        passed,
        point,
        rank,
    } = *report;
    writeln!(
        out,
        "report {verdict} {judged} {unsafe_judged} {forgone} {passed} {point} {rank}"
    )
}

/// Writes the line of a refusal by its number and place.
fn write_code<W: Write>(out: &mut W, code: (u64, u64)) -> io::Result<()>
    ensures { OnOk result (Appends (W.Write.contents out.old) (W.Write.contents out.new) (refusal_line code)) }
{
    let (number, place) = code;
    writeln!(out, "declined {number} {place}")
}

/// Writes the line of a refusal. Want of memory has no line: it is the failure.
pub fn write_refusal<W: Write>(out: &mut W, refusal: &Refusal) -> Result<(), Failed>
    ensures { OnOk result (Written (W.Write.contents out.old) (W.Write.contents out.new) (option_map refusal_line (code_of refusal.now))) }
{
    let code = refusal.code().ok_or(Failed::Memory)?;
    write_code(out, code)?;
    Ok(())
}

/// Adds a byte in two hexadecimal digits.
#[tactic(auto, using(std::proofs::lemmas::Fmt::hex_byte))]
fn push_hex(shown: &mut String, byte: u8) -> Result<(), AllocError>
    ensures { OnOk result (string_bytes shown.new ≡ string_bytes shown.old ++ byte_text byte) }
{
    write!(shown, "{byte:02x}")
}

/// Bytes, each in two hexadecimal digits.
fn hex(heap: Global, bytes: &[u8]) -> Result<String, AllocError>
    ensures { IfOk result (λ s. string_bytes s ≡ flat_map byte_text bytes.now) }
{
    let mut shown = String::new(heap);
    for byte in bytes {
        push_hex(&mut shown, *byte)?;
    }
    Ok(shown)
}

/// Writes the line of the answer to a call that was accepted.
fn write_accepted<W: Write>(heap: Global, out: &mut W, answer: &Answer) -> Result<(), Failed>
    ensures { OnOk result (Appends (W.Write.contents out.old) (W.Write.contents out.new) (accepted_line answer.now)) }
{
    match answer {
        Answer::Loaded | Answer::Forgone => writeln!(out, "ok")?,
        Answer::Next(None) => writeln!(out, "ok end")?,
        Answer::Next(Some((point, rank))) => writeln!(out, "ok {point} {rank}")?,
        Answer::Found(found) => {
            let (outcome, node) = found.code();
            writeln!(out, "ok {outcome} {node}")?;
        }
        Answer::Shown(content) => {
            let text = hex(heap, content)?;
            writeln!(out, "ok {text}")?;
        }
        Answer::Reported(report) => write_report(out, report)?,
    }
    Ok(())
}

/// Writes the line of the answer to a call.
pub fn write_answer<W: Write>(
    heap: Global,
    out: &mut W,
    answer: &Result<Answer, Refusal>,
) -> Result<(), Failed>
    ensures { OnOk result (Written (W.Write.contents out.old) (W.Write.contents out.new) (answer_line answer.now)) }
{
    match answer {
        Ok(accepted) => write_accepted(heap, out, accepted),
        Err(refusal) => write_refusal(out, refusal),
    }
}
