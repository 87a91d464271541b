// What terminals answer.
use crate::deaf::Deaf;
use crate::seeing::{cells, grid, picture, window};
use grid::grid::Grid;
use std::test::Fail;
use terminal::pacer::Pacer;
use terminal::record::Record;
use terminal::size::Size;
use terminal::terminal::{Terminal, WriteError};
use terminal::writing::{BrokenWrite, WriteFault, write_all};
use widths::tables::{Eastern, Latin};

// The grid takes the bytes that fit, and is down when the first does not; nothing else is taken.
#[test]
fn full_grid(rt: HostRuntime) -> Result<(), Fail> {
    let heap = rt.alloc();
    // three rows of paper, just the window
    let mut small = grid(heap, 15)?;
    assert_eq!(rt; small.write(b"a\n\n\nb"), Ok(3));
    assert_eq!(rt; small.write(b"\nb"), Err(WriteError::Down));
    assert_eq!(rt; small.write(b""), Ok(0));
    assert_eq!(rt; picture(heap, &small)?.as_str(), "2,0,0 |a....|.....|.....");
    assert_eq!(rt; small.write(b"abcdefg"), Ok(5));
    assert_eq!(rt; small.write(b"f"), Err(WriteError::Down));
    assert_eq!(rt; small.write(b"\rx"), Ok(2));
    assert_eq!(rt; picture(heap, &small)?.as_str(), "2,1,0 |a....|.....|xbcde");
    Ok(())
}

// Cells that do not hold the window's rows are given back; those past the last whole row are cut off.
#[test]
fn cells_given(rt: HostRuntime) -> Result<(), Fail> {
    let heap = rt.alloc();
    let Err(back) = Grid::new(Eastern, cells(heap, 14)?, window()?) else {
        return Err(Fail::new("too few cells were taken"));
    };
    assert_eq!(rt; back.len(), 14);
    let larger = grid(heap, 19)?;
    assert_eq!(rt; larger.depth(), 3);
    assert_eq!(rt; larger.into_cells().len(), 15);
    Ok(())
}

// The record keeps what fits, and is down when not one byte does.
#[test]
fn full_record(rt: HostRuntime) -> Result<(), Fail> {
    let heap = rt.alloc();
    let mut log = Record::new(Latin, vec![in heap; 0; 4]?, window()?);
    assert_eq!(rt; log.write(b"abc"), Ok(3));
    assert_eq!(rt; log.write(b""), Ok(0));
    assert_eq!(rt; log.write(b"de"), Ok(1));
    assert_eq!(rt; log.write(b"e"), Err(WriteError::Down));
    assert_eq!(rt; log.write(b""), Ok(0));
    assert!(rt; log.bytes() == b"abcd".as_slice());
    let broken = BrokenWrite {
        fault: WriteFault::Down,
        taken: 0,
        answer: Err(WriteError::Down),
    };
    assert_eq!(rt; write_all(&mut log, b"xy"), Err(broken));
    Ok(())
}

// Each pacer of a pile passes 32 bytes on, and a write of all the bytes goes through.
#[test]
fn pile_of_pacers(rt: HostRuntime) -> Result<(), Fail> {
    let heap = rt.alloc();
    let log = Record::new(Latin, vec![in heap; 0; 50]?, window()?);
    let mut pile = Pacer::new(Pacer::new(log));
    assert_eq!(rt; pile.write(&[97; 40]), Ok(32));
    assert_eq!(rt; pile.write(&[98; 10]), Ok(10));
    let broken = BrokenWrite {
        fault: WriteFault::Down,
        taken: 8,
        answer: Err(WriteError::Down),
    };
    assert_eq!(rt; write_all(&mut pile, &[99; 40]), Err(broken));
    Ok(())
}

// Eight interruptions in a row end a write, and there is no ninth call.
#[test]
fn interruptions(rt: HostRuntime) -> Result<(), Fail> {
    let mut deaf = Deaf {
        below: grid(rt.alloc(), 15)?,
        calls: 0,
    };
    let broken = BrokenWrite {
        fault: WriteFault::Busy,
        taken: 0,
        answer: Err(WriteError::Interrupted),
    };
    assert_eq!(rt; write_all(&mut deaf, b"a"), Err(broken));
    assert_eq!(rt; deaf.calls, 8);
    Ok(())
}

// Each fault with its number, and as it is printed.
#[test]
fn faults(rt: HostRuntime) -> Result<(), Fail> {
    for (fault, number, text) in [
        (WriteFault::Down, 8, "8 down"),
        (WriteFault::Busy, 9, "9 busy"),
    ] {
        assert_eq!(rt; u8::from(fault), number);
        assert_eq!(rt; format!(in rt.alloc(); "{fault}")?.as_str(), text);
    }
    Ok(())
}

// Sizes from 2 to 500 columns and from 1 to 200 rows.
#[test]
fn sizes(rt: HostRuntime) {
    assert!(rt; Size::new(2, 1).is_ok() && Size::new(500, 200).is_ok());
    assert!(rt; Size::new(1, 1).is_err() && Size::new(501, 1).is_err());
    assert!(rt; Size::new(2, 0).is_err() && Size::new(2, 201).is_err());
}
