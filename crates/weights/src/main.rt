// The program `weights`: the table of parity weights goes to standard output, one line each of n, i and word.
#![tactic(auto)]

ghost use Rattle.std.specs.Prelude.{◌≡◌, ◌+◌, ◌≤◌, ◌<◌, length, OnOk};
ghost use Rattle.std.specs.Io.KnownBytes.{Appends};
ghost use Rattle.members.specs.Members.{size};
ghost use Rattle.text.specs.Internal.Writing.{Written};
ghost use Rattle.weights.specs.WeightTable.{weight_line, member_lines, table};

use std::io;
use std::io::Write;
use text::Output;

// The line of member i of n = 2t + 1, counted from 0. The table has no d, so there is no `Shape` that has the bounds of t.
fn put_weight_line(t: usize, i: usize, output: &mut Output)
    requires { (1 ≤ t) × (t ≤ 15) × (i < size t) × (output.old.end + length (weight_line (size t) i) ≤ length output.old.bytes.now) }
    ensures same_reference { output.new.bytes.ghost_name ≡ output.old.bytes.ghost_name }
    ensures written { Written output.old.bytes.now output.old.end (weight_line (size t) i) output.new.bytes.now output.new.end }
{
    let n = members::size(t);
    let numbers = [(i + 1) as u16, parity::weight(t, i)];
    output.put_numbers(n as u32, &numbers);
}

// The lines of n = 2t + 1 members.
fn put_member_lines(t: usize, output: &mut Output)
    requires { (1 ≤ t) × (t ≤ 15) × (output.old.end + length (member_lines (size t)) ≤ length output.old.bytes.now) }
    ensures same_reference { output.new.bytes.ghost_name ≡ output.old.bytes.ghost_name }
    ensures written { Written output.old.bytes.now output.old.end (member_lines (size t)) output.new.bytes.now output.new.end }
{
    for i in 0..members::size(t) {
        put_weight_line(t, i, output);
    }
}

// The whole table.
fn fill_table(bytes: &mut [u8; 2858])
    ensures { bytes.new ≡ table }
{
    let mut output = Output::new(bytes);
    for t in 1..=15 {
        put_member_lines(t, &mut output);
    }
}

// Prints the table.
fn print<W: Write>(writer: &mut W, output: &mut [u8; 2858]) -> io::Result<()>
    ensures { OnOk result (Appends (W.contents writer.old) (W.contents writer.new) table) }
{
    fill_table(output);
    writer.write_all(output)
}

// If the write failed, standard error says so.
fn main(rt: HostRuntime) {
    let mut output = [0u8; 2858];
    if let Err(error) = print(&mut io::writer(&rt), &mut output) {
        let _ = eprintln!(rt; "standard output: {error}");
    }
}
