//! The calls of a script, one after another.

ghost use Rattle.std.specs.Prelude.{◌<◌, ◌++◌, IfOk, OnSome, codes, decimal, string_bytes};
ghost use Rattle.print.specs.Laws.{NumberBack};
ghost use Rattle.print.specs.Printing.{Adds};
ghost use Rattle.station.specs.Left.{left};

use crate::lines::Lines;
use avro::Avro;
use carrier::{Carrier, Item, Kind};
use queue::coding::Coding;
use queue::lent::Queue;
use script::call::{Call, Opening, parse};
use script::items::Items;
use script::line::is_remark;
use spelling::bad::Bad;
use std::alloc::{AllocError, Global};
use std::io::Write;
use transfer::calls::{put_items, take_items};
use transfer::cells::{Cell, item_in};
use words::Words;

/// A coding whose rows can be printed.
trait Shown: Coding {
    fn print_row(row: &[Self::Number], out: &mut String) -> Result<(), AllocError>;
}

impl Shown for Avro {
    fn print_row(row: &[u8], out: &mut String) -> Result<(), AllocError> {
        print::hex(out, row)
    }
}

impl Shown for Words {
    fn print_row(row: &[u64], out: &mut String) -> Result<(), AllocError> {
        print::words(out, row)
    }
}

/// A number as an answer, which is read as that number again.
fn say_number(out: &mut String, n: u64) -> Result<(), AllocError>
    ensures added { Adds result (codes "ok " ++ decimal n) (string_bytes out.old) (string_bytes out.new) }
    ensures reads_back { NumberBack n }
{
    out.push_str("ok ")?;
    print::number(out, n)
}

fn say_put<C: Carrier>(c: &mut C, items: &Items, out: &mut String) -> Result<(), AllocError> {
    let all: Vec<Item<&[u8]>> = items
        .cells
        .iter()
        .map(|cell| item_in(*cell, &items.bytes))
        .collect(*out.allocator())?;
    match put_items(c, &all) {
        Ok(n) => say_number(out, n),
        Err(fault) => answers::case(out, fault.into()),
    }
}

// A fixed of more bytes than numbers wait stands nowhere, whatever its length: it is asked for by one
// more than wait, so that it needs no more memory.
fn bounded(kind: Kind, waiting: usize) -> Kind {
    match kind {
        Kind::Fixed(n) => Kind::Fixed(n.min(waiting.saturating_add(1))),
        other => other,
    }
}

// How many bytes hold whatever items of the kinds can wait, as far as there are so many.
fn bytes_for(kinds: &[Kind], waiting: usize) -> usize {
    kinds.iter().fold(waiting, |size, kind| match kind {
        Kind::Fixed(n) => size.saturating_add(*n),
        _ => size,
    })
}

fn say_take<C: Coding>(
    queue: &mut Queue<'_, C>,
    kinds: &[Kind],
    out: &mut String,
) -> Result<(), AllocError> {
    let heap = *out.allocator();
    let waiting = queue.row().len();
    let asked: Vec<Kind> = kinds
        .iter()
        .map(|kind| bounded(*kind, waiting))
        .collect(heap)?;
    let mut bytes = vec![in heap; 0u8; bytes_for(&asked, waiting)]?;
    let mut cells = vec![in heap; Cell::Truth(false); kinds.len()]?;
    match take_items(queue, &asked, &mut cells, &mut bytes) {
        Ok(_) => {
            out.push_str("ok")?;
            print::items(out, &cells, &bytes)
        }
        Err(fault) => answers::case(out, fault.into()),
    }
}

/// What answers the calls on a carrier.
trait Station {
    fn answer(&mut self, call: &Call, out: &mut String) -> Result<(), Bad>;
}

impl<C: Shown> Station for Queue<'_, C> {
    fn answer(&mut self, call: &Call, out: &mut String) -> Result<(), Bad> {
        match call {
            Call::Row => {
                out.push_str("ok ")?;
                C::print_row(self.row(), out)?;
            }
            Call::Room => say_number(out, self.room())?,
            Call::Waiting => write!(out, "{}", self.waiting())?,
            Call::Price(cell, bytes) => say_number(out, self.price(item_in(*cell, bytes)))?,
            Call::ItemPut(items) => say_put(self, items, out)?,
            Call::ItemTake(kinds) => say_take(self, kinds, out)?,
            Call::Carrier(_) => {}
        }
        Ok(())
    }
}

/// A station before its first carrier.
#[derive(Drop)]
struct Closed {}

impl Station for Closed {
    fn answer(&mut self, _call: &Call, _out: &mut String) -> Result<(), Bad> {
        Err(Bad::NoCarrier)
    }
}

/// The memory of a carrier that is to be opened.
#[derive(Drop)]
enum Memory {
    Avro(Vec<u8>),
    Words(Vec<u64>),
    Written(Vec<u8>),
}

fn memory_of(heap: Global, opening: Opening) -> Result<Memory, AllocError> {
    match opening {
        Opening::Avro(n) => vec![in heap; 0u8; n].map(Memory::Avro),
        Opening::Words(n) => vec![in heap; 0u64; n].map(Memory::Words),
        Opening::AvroWritten(bytes) => Ok(Memory::Written(bytes)),
    }
}

// Prints a line, whatever bytes it holds.
fn tell(rt: &HostRuntime, line: &[u8]) -> anyhow::Result<()> {
    let mut out = Vec::new(rt.alloc());
    out.extend_from_slice(line)?;
    out.push(b'\n')?;
    rt.stdout().write_all(&out)?;
    Ok(())
}

/// What a call asks for: it was answered, or it opens a carrier on memory.
fn answer<S: Station>(
    heap: Global,
    station: &mut S,
    line: &[u8],
    out: &mut String,
) -> Result<Option<Memory>, Bad> {
    match parse(heap, line)? {
        Call::Carrier(opening) => Ok(Some(memory_of(heap, opening)?)),
        call => {
            station.answer(&call, out)?;
            Ok(None)
        }
    }
}

// Answers one line, or answers the memory of the carrier that it opens.
fn play_line<S: Station>(
    rt: &HostRuntime,
    station: &mut S,
    number: u64,
    line: &[u8],
) -> anyhow::Result<Option<Memory>> {
    if is_remark(line) {
        tell(rt, line)?;
        return Ok(None);
    }
    let heap = rt.alloc();
    let mut out = String::new(heap);
    match answer(heap, station, line, &mut out) {
        Ok(None) => tell(rt, out.as_bytes())?,
        Ok(memory) => return Ok(memory),
        Err(bad) => {
            let mut out = String::new(heap);
            answers::bad_line(&mut out, number, bad)?;
            tell(rt, out.as_bytes())?;
        }
    }
    Ok(None)
}

// Answers lines until one opens another carrier.
fn play_on<S: Station>(
    rt: &HostRuntime,
    lines: &mut Lines,
    station: &mut S,
) -> anyhow::Result<Option<Memory>>
    ensures { IfOk result (λ o. OnSome o (left lines.new < left lines.old)) }
{
    while let Some(line) = lines.next() {
        let number = lines.number();
        if let Some(memory) = play_line(rt, station, number, line)? {
            return Ok(Some(memory));
        }
    }
    Ok(None)
}

// Opens a carrier on the memory and answers lines with it.
fn play_opened(
    rt: &HostRuntime,
    lines: &mut Lines,
    memory: Memory,
) -> anyhow::Result<Option<Memory>>
    ensures { IfOk result (λ o. OnSome o (left lines.new < left lines.old)) }
{
    tell(rt, b"ok")?;
    match memory {
        Memory::Avro(mut bytes) => play_on(rt, lines, &mut avro::on_memory(&mut bytes)),
        Memory::Words(mut row) => play_on(rt, lines, &mut words::on_memory(&mut row)),
        Memory::Written(mut bytes) => play_on(rt, lines, &mut avro::on_written(&mut bytes)),
    }
}

/// Plays the whole script.
pub(crate) fn play(rt: &HostRuntime, text: &[u8]) -> anyhow::Result<()> {
    let mut lines = Lines::of(text);
    let mut opened = play_on(rt, &mut lines, &mut Closed {})?;
    while let Some(memory) = opened {
        opened = play_opened(rt, &mut lines, memory)?;
    }
    Ok(())
}
