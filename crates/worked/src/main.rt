// Worked inputs of the study, the readers and the sheet; what is printed is compared with `stdout`.
#![tactic(auto)]

use records::Records;
use setmap::bit_choice::BitChoice;
use sheet_report::{evening_sheet, render};
use stack::Entry;
use study::OpenStudy;
use tables::{Mark, Settings};
use text::source::Text;
use trace::{Block, Operation, Source};

const SHEET_INPUT: &str = "b,2,0,2,2,8\n1,r,0\n1,r,1\n1,r,2\n2,w,2\n1,r,0\n1,r,3\n1,r,2\n3,r,0\n";

// A study of so many blocks, in tables that are long enough for them. They are its own: the call that lends them is what is shown.
fn show_set_up(rt: &HostRuntime, blocks: u32) -> anyhow::Result<()> {
    let mut entries: Vec<Entry> = vec![in rt.alloc(); Entry::Empty; 1]?;
    let known: Vec<Block> = vec![in rt.alloc(); Block { number: 0 }; 4_097]?;
    let mut marks: Vec<Mark> = vec![in rt.alloc(); Mark::Never; 4_097]?;
    let mut counters: Vec<u32> = vec![in rt.alloc(); 0; 5]?;
    let settings = Settings {
        processors: 1,
        shift: 0,
        levels: 1,
        ways: 1,
        blocks,
        entries: 1,
    };
    let made = OpenStudy::set_up(
        BitChoice,
        settings,
        entries.as_mut_slice(),
        known.as_slice(),
        marks.as_mut_slice(),
        counters.as_mut_slice(),
    );
    match made {
        Ok(_) => println!(rt; "blocks {blocks}: accepted")?,
        Err(refused) => {
            let number = refused.refusal.number();
            println!(rt; "blocks {blocks}: refused with {number}")?
        }
    }
    Ok(())
}

// A verb for this page alone: a Display of an operation would tell it to all.
fn name(operation: Operation) -> &'static str {
    match operation {
        Operation::Read => "reads",
        Operation::Write => "writes",
        Operation::Fetch => "fetches",
    }
}

// What a source answers next, in this page's words: a Display would tell them to all.
fn show_next<S: Source>(rt: &HostRuntime, source: &mut S) -> anyhow::Result<()> {
    match source.next() {
        Ok(None) => println!(rt; "the end")?,
        Ok(Some(r)) => {
            let does = name(r.operation);
            println!(rt; "processor {} {does} {}", r.processor, r.address)?
        }
        Err(fault) => {
            let number = fault.refusal.number();
            println!(rt; "item {}: refused with {number}", fault.item)?
        }
    }
    Ok(())
}

fn run(rt: &HostRuntime) -> anyhow::Result<()> {
    show_set_up(rt, 4_096)?;
    show_set_up(rt, 4_097)?;
    show_next(rt, &mut Text::new("".as_bytes()))?;
    show_next(rt, &mut Text::new("01,r,0\n".as_bytes()))?;
    show_next(rt, &mut Text::new("1,r,4294967296\n".as_bytes()))?;
    show_next(rt, &mut Records::new(&[0x01, 0x01, 0x00, 0x00, 0x10, 0x00]))?;
    let answer = evening_sheet(rt.alloc(), SHEET_INPUT.as_bytes());
    let text = render(rt.alloc(), &answer)?;
    rt.print(text.as_str())?;
    Ok(())
}

fn main(rt: HostRuntime) -> anyhow::Result<()> {
    run(&rt)
}
