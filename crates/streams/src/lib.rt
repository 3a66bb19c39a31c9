// Input and output of the listing program: thin loops over proved functions on slices.
#![tactic(auto)]

ghost use Rattle.std.specs.Prelude.{◌≡◌, IfOk, OnOk};
ghost use Rattle.std.specs.Io.KnownBytes.{Appends};
ghost use Rattle.printing.specs.Printed.{line_text};
ghost use Rattle.listing.specs.Loading.{stopped};
ghost use Rattle.streams.specs.Reading.{OfText, ReadFrom};
ghost use Rattle.streams.specs.Writing.{refusal_text, bad_line_text, wrong_text, listing_text};

use listing::{Load, Wrong};
use printing::Columns;
use std::io;
use std::io::{Read, Write};

// Reads the input to its end, or to the first thing that is wrong. A read that fails counts as the end of the input.
#[tactic(auto, using(crate::proofs::Loads::text_stopped, crate::proofs::Loads::read_stopped))]
pub fn read_all<R: Read>(input: &mut R) -> Load
    ensures of_text { OfText result }
    ensures given { ReadFrom (R.remaining input.old) (R.remaining input.new) result }
{
    let mut now = Load::start();
    let mut buf = [0u8; 4096];
    for _ in 0..u64::MAX {
        if now.wrong.is_some() {
            return now;
        }
        match input.read(&mut buf) {
            Ok(n) if 0 < n => now = listing::feed(now, &buf[..n]),
            _ => return now.end(),
        }
    }
    now.end()
}

// Prints `refused`, a space and a refusal's number.
pub fn print_refusal<W: Write>(out: &mut W, refusal: u32) -> io::Result<()>
    ensures { OnOk result (Appends (W.contents out.old) (W.contents out.new) (refusal_text refusal)) }
{
    writeln!(out, "refused {refusal}")
}

// Prints `bad line`, a space and a line's number.
fn print_bad_line<W: Write>(out: &mut W, line: u64) -> io::Result<()>
    ensures { OnOk result (Appends (W.contents out.old) (W.contents out.new) (bad_line_text line)) }
{
    writeln!(out, "bad line {line}")
}

// Prints what is wrong with a load and answers true, or answers false.
pub fn print_wrong<W: Write>(out: &mut W, load: &Load) -> io::Result<bool>
    ensures wrong { IfOk result (λ wrong. wrong ≡ stopped load.now) }
    ensures text { OnOk result (Appends (W.contents out.old) (W.contents out.new) (wrong_text load.now)) }
{
    match load.wrong {
        None => return Ok(false),
        Some(Wrong::BadLine) => print_bad_line(out, load.line)?,
        Some(Wrong::Refused(refusal)) => print_refusal(out, refusal)?,
    }
    Ok(true)
}

// Prints a node's line in one write.
fn print_line<W: Write>(out: &mut W, columns: Columns) -> io::Result<()>
    ensures { OnOk result (Appends (W.contents out.old) (W.contents out.new) (line_text columns)) }
{
    let line = printing::line(columns);
    out.write_all(&line.bytes[line.from..])
}

// Prints one header line, then a line for each of the n nodes of an index.
pub fn print_listing<W: Write>(out: &mut W, index: &[u32], totals: &[i64], n: u32) -> io::Result<()>
    ensures { OnOk result (Appends (W.contents out.old) (W.contents out.new) (listing_text index.now totals.now n)) }
{
    out.write_all(b"rank size parent level root cycle orphan id sum\n")?;
    for rank in 1..=n {
        print_line(out, listing::columns(index, totals, rank))?;
    }
    Ok(())
}
