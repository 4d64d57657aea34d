#![tactic(auto)]

use anyhow::anyhow;
use grid_report::{Grid, OpenError};
use rendering::Lines;
use report::Map;
use setmap::SetMap;
use setmap::bit_choice::BitChoice;
use setmap::thirds::Thirds;
use sheet_report::read_settings;
use sheets::Sizes;
use std::fs::File;
use std::io;
use std::io::Read;

mod words;

use words::{Request, read_words};

// A piece of a trace is large, since each is looked over once more before it is fed.
const PIECE: usize = 1_048_576;

// Progress is told once in so many pieces.
const TOLD: u64 = 16;

// Reads the next piece in place of the last; it is full unless the trace ends, though a pipe gives less at a time.
// It has room for a byte more than it reads, since a list that is full would grow to look for the end.
fn next_piece<R: Read>(trace: &mut R, piece: &mut Vec<u8>) -> io::Result<usize> {
    piece.clear();
    trace.by_ref().take(PIECE as u64).read_to_end(piece)
}

// Adds a trace to a grid, piece by piece, and prints what is refused of it.
fn read_trace<M: SetMap + Copy, R: Read>(
    rt: &HostRuntime,
    grid: &mut Grid<M>,
    trace: &mut R,
    progress: bool,
) -> anyhow::Result<()> {
    let mut piece: Vec<u8> = Vec::with_capacity(rt.alloc(), PIECE + 1)?;
    let mut bytes: u64 = 0;
    for turn in 0..u64::MAX {
        let read = next_piece(trace, &mut piece).map_err(|error| anyhow!(
            "the trace cannot be read: {error}"
        ))?;
        if read == 0 {
            break;
        }
        let lines = grid.add(rt.alloc(), piece.as_slice())?;
        let text = Lines(lines.as_slice()).to_string(rt.alloc())?;
        rt.print(text.as_str())?;
        bytes = bytes.saturating_add(read as u64);
        // Asked at each piece: two loops, or a closure that prints, would be longer.
        if progress && turn % TOLD == 0 {
            eprintln!(rt; "{bytes} bytes read")?;
        }
    }
    if progress {
        eprintln!(rt; "{bytes} bytes read, all of the trace")?;
    }
    Ok(())
}

// The grid of the trace that is asked for, on a map.
fn fill_grid<M: SetMap + Copy + Drop>(
    rt: &HostRuntime,
    map: M,
    sizes: Sizes,
    request: &Request,
) -> anyhow::Result<()> {
    let mut grid = Grid::open(rt.alloc(), map, sizes, request.form)?;
    match &request.file {
        Some(path) => {
            let mut file = File::open(rt, path.as_str()).map_err(|error| anyhow!(
                "{path}: {error}"
            ))?;
            read_trace(rt, &mut grid, &mut file, request.progress)?;
        }
        None => read_trace(rt, &mut grid, &mut rt.stdin(), request.progress)?,
    }
    let text = grid.finish(rt.alloc())?.to_string(rt.alloc())?;
    rt.print(text.as_str())?;
    Ok(())
}

fn run(rt: &HostRuntime) -> anyhow::Result<()> {
    let request = read_words(rt)?;
    let chosen = read_settings(request.settings.as_bytes()).map_err(OpenError::Refused)?;
    // Map by map, since a closure is not generic in the map.
    match chosen.map {
        Map::BitChoice => fill_grid(rt, BitChoice, chosen.sizes, &request),
        Map::Thirds => fill_grid(rt, Thirds, chosen.sizes, &request),
    }
}

fn main(rt: HostRuntime) -> anyhow::Result<()> {
    run(&rt)
}
