use crate::buffered::BufferedSink;
use crate::coded::{DecodeFault, decode};
use crate::devices::Shelf;
use crate::mem_shelf::{MemFile, MemShelf};
use crate::mem_sink::MemSink;
use crate::mem_source::{MemSource, MemText};
use crate::numbers::read_number;
use crate::system::{FileShelf, StdSink};
use crate::text::Text;
use crate::transfer::{ReadAnswer, WriteFault, read_all, read_named, write_all};
use std::alloc::Global;
use std::process::Abort;
use std::test::Fail;

// Reads a text in memory with a limit, and says how it went: the text, or why there is none.
fn outcome(
    alloc: Global,
    text: &MemText<'_>,
    limit: u64,
) -> Result<Result<Vec<u8>, ReadAnswer>, Fail> {
    let name = Text::of(alloc, b"log")?;
    let mut source = MemSource::of(name, text);
    Ok(read_all(alloc, &mut source, limit))
}

#[test]
fn reads_to_the_end(rt: HostRuntime) -> Result<(), Fail> {
    let plain = MemText::of(b"hello");
    let slow = MemText::of(b"hello").with_most(1);
    let copied = MemText::repeating(b"ab", b"xyz", 2).with_most(2);
    let nothing = MemText::of(b"");
    let rows: [(&MemText<'_>, u64, Result<&[u8], ReadAnswer>); 7] = [
        (&plain, 5, Ok(b"hello")),
        (&plain, 4, Err(ReadAnswer::TooLong)),
        (&plain, u64::MAX, Ok(b"hello")),
        (&slow, 5, Ok(b"hello")),
        (&slow, 4, Err(ReadAnswer::TooLong)),
        (&copied, 8, Ok(b"abxyzxyz")),
        (&nothing, 0, Ok(b"")),
    ];
    for (text, limit, want) in rows {
        match outcome(rt.alloc(), text, limit)? {
            Ok(bytes) => assert_eq!(rt; Ok(bytes.as_slice()), want),
            Err(answer) => assert_eq!(rt; Err(answer), want),
        }
    }
    Ok(())
}

// Read by 2, "he", "ll" and "o" are three reads, and the fourth finds the end. Read at once, the second
// finds it.
#[test]
fn fails_by_the_number_of_the_read(rt: HostRuntime) -> Result<(), Fail> {
    let rows: [(usize, &[u64], Result<&[u8], ReadAnswer>); 5] = [
        (2, &[3], Err(ReadAnswer::Fault)),
        (2, &[4], Err(ReadAnswer::Fault)),
        (2, &[5], Ok(b"hello")),
        (9, &[2], Err(ReadAnswer::Fault)),
        (9, &[3, 4, 5], Ok(b"hello")),
    ];
    for (most, failing, want) in rows {
        let text = MemText::of(b"hello")
            .with_most(most.max(1))
            .with_failing(failing);
        match outcome(rt.alloc(), &text, 5)? {
            Ok(bytes) => assert_eq!(rt; Ok(bytes.as_slice()), want),
            Err(answer) => assert_eq!(rt; Err(answer), want),
        }
    }
    Ok(())
}

// A text of 16,777,216 bytes is read whole, and one of a byte more is too long.
#[test]
fn reads_a_great_text(rt: HostRuntime) -> Result<(), Fail> {
    let piece = b"0123456789abcdef";
    let whole = MemText::repeating(b"", piece, 1_048_576);
    let longer = MemText::repeating(b"!", piece, 1_048_576);
    let read = outcome(rt.alloc(), &whole, 16_777_216)?.map(|bytes| bytes.len());
    assert_eq!(rt; read, Ok(16_777_216));
    let read = outcome(rt.alloc(), &longer, 16_777_216)?.map(|bytes| bytes.len());
    assert_eq!(rt; read, Err(ReadAnswer::TooLong));
    Ok(())
}

#[test]
fn writes_whole_pieces(rt: HostRuntime) {
    let rows: [(usize, &[u64], &[u8], Result<(), WriteFault>, &[u8]); 6] = [
        (9, &[], b"hello", Ok(()), b"hello"),
        (1, &[], b"hello", Ok(()), b"hello"),
        (2, &[3], b"hello", Err(WriteFault), b"hell"),
        (9, &[1], b"hello", Err(WriteFault), b""),
        (9, &[1], b"", Ok(()), b""),
        (2, &[4], b"hello", Ok(()), b"hello"),
    ];
    for (most, failing, piece, want, taken) in rows {
        let mut sink = MemSink::of(rt.alloc(), most.max(1), failing);
        assert_eq!(rt; write_all(&mut sink, piece), want);
        assert_eq!(rt; sink.bytes(), taken);
    }
}

// 65,536 bytes are kept. A piece more hands them on, and a write of them that fails loses none.
#[test]
fn gathers_writes(rt: HostRuntime) -> Result<(), Fail> {
    let rows: [&[u64]; 3] = [&[], &[1], &[2]];
    for failing in rows {
        let mut sink = BufferedSink::of(rt.alloc(), MemSink::of(rt.alloc(), 65_535, failing))?;
        for _ in 0..4096 {
            assert_eq!(rt; write_all(&mut sink, b"0123456789abcdef"), Ok(()));
        }
        assert_eq!(rt; sink.behind().bytes().len(), 0);
        let first = write_all(&mut sink, b"more");
        assert_eq!(rt; first.is_ok(), failing.is_empty());
        if first.is_err() {
            assert_eq!(rt; write_all(&mut sink, b"more"), Ok(()));
        }
        assert_eq!(rt; sink.behind().bytes().len(), 65_536);
        assert_eq!(rt; sink.flush(), Ok(()));
        assert!(rt; sink.behind().bytes().ends_with(b"0123456789abcdefmore"));
        assert_eq!(rt; sink.behind().bytes().len(), 65_540);
    }
    Ok(())
}

#[test]
fn opens_by_name(rt: HostRuntime) -> Result<(), Fail> {
    let files = [
        MemFile {
            name: b"log",
            text: MemText::of(b"one"),
        },
        MemFile {
            name: b"bad",
            text: MemText::of(b"two").with_failing(&[1]),
        },
        MemFile {
            name: b"log",
            text: MemText::of(b"three"),
        },
    ];
    let mut shelf = MemShelf::of(&files, &[2]);
    let rows: [(&[u8], Result<&[u8], ReadAnswer>); 6] = [
        (b"log", Ok(b"one")),
        (b"log", Err(ReadAnswer::Fault)),
        (b"log", Ok(b"one")),
        (b"bad", Err(ReadAnswer::Fault)),
        (b"lo", Err(ReadAnswer::Fault)),
        (b"", Err(ReadAnswer::Fault)),
    ];
    for (name, want) in rows {
        check(&rt, rt.alloc(), &mut shelf, name, want)?;
    }
    Ok(())
}

// What the system has: an empty device, a folder, a missing file, and names that are no paths.
#[test]
fn opens_files(rt: HostRuntime) -> Result<(), Fail> {
    let mut shelf = FileShelf::of(&rt);
    let rows: [(&[u8], Result<&[u8], ReadAnswer>); 5] = [
        (b"/dev/null", Ok(b"")),
        (b"/", Err(ReadAnswer::Fault)),
        (b"/no such file", Err(ReadAnswer::Fault)),
        (b"\xff", Err(ReadAnswer::Fault)),
        (b"/dev/null\0", Err(ReadAnswer::Fault)),
    ];
    for (name, want) in rows {
        check(&rt, rt.alloc(), &mut shelf, name, want)?;
    }
    Ok(())
}

// One text of a shelf, by its name.
fn check<F: Shelf>(
    rt: &impl Abort,
    alloc: Global,
    shelf: &mut F,
    name: &[u8],
    want: Result<&[u8], ReadAnswer>,
) -> Result<(), Fail> {
    let name = Text::of(alloc, name)?;
    match read_named(alloc, shelf, name, 100) {
        Ok(bytes) => assert_eq!(rt; Ok(bytes.as_slice()), want),
        Err(answer) => assert_eq!(rt; Err(answer), want),
    }
    Ok(())
}

#[test]
fn writes_to_standard_streams(rt: HostRuntime) {
    let mut out = StdSink::of(rt.stdout());
    let mut err = StdSink::of(rt.stderr());
    assert_eq!(rt; write_all(&mut out, b"out\n"), Ok(()));
    assert_eq!(rt; write_all(&mut err, b"err\n"), Ok(()));
    assert_eq!(rt; write_all(&mut out, b""), Ok(()));
}

#[test]
fn texts_keep_their_bytes(rt: HostRuntime) -> Result<(), Fail> {
    let text = Text::of(rt.alloc(), b"a\xff\0")?;
    assert_eq!(rt; text.bytes(), b"a\xff\0".as_slice());
    let again = Text::from_vec(text.into_vec());
    assert_eq!(rt; again.bytes(), b"a\xff\0".as_slice());
    Ok(())
}

#[test]
fn decodes_text(rt: HostRuntime) -> Result<(), Fail> {
    let badly = Err(DecodeFault::Badly);
    let rows: [(&[u8], Result<&[u8], DecodeFault>); 16] = [
        (b"", Ok(b"")),
        (b"a/b", Ok(b"a/b")),
        (b"%41", Ok(b"A")),
        (b"x%4a%4Ay", Ok(b"xJJy")),
        (b"%00%fF%Ff", Ok(b"\x00\xff\xff")),
        (b"%2541", Ok(b"%41")),
        (b"%412", Ok(b"A2")),
        (b"!~", Ok(b"!~")),
        (b"%", badly),
        (b"%4", badly),
        (b"a%", badly),
        (b"%zz", badly),
        (b"%4g", badly),
        (b"%%41", badly),
        (b"a b", badly),
        (b"a\x7f", badly),
    ];
    for (text, want) in rows {
        match decode(rt.alloc(), text) {
            Ok(bytes) => assert_eq!(rt; Ok(bytes.as_slice()), want),
            Err(fault) => assert_eq!(rt; Err(fault), want),
        }
    }
    Ok(())
}

#[test]
fn reads_numbers(rt: HostRuntime) {
    let rows: [(&[u8], u64, Option<u64>); 13] = [
        (b"0", 0, Some(0)),
        (b"1", 0, None),
        (b"9", 10, Some(9)),
        (b"10", 10, Some(10)),
        (b"11", 10, None),
        (
            b"18446744073709551615",
            u64::MAX,
            Some(18_446_744_073_709_551_615),
        ),
        (b"18446744073709551616", u64::MAX, None),
        (b"", 10, None),
        (b"00", 10, None),
        (b"01", 10, None),
        (b"+1", 10, None),
        (b"1a", 10, None),
        (b" 1", 10, None),
    ];
    for (word, most, want) in rows {
        assert_eq!(rt; read_number(word, most), want);
    }
}
