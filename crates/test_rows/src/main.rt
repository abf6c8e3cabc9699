// Runs the compiled functions of row_read, and of settings behind them, on texts at the edges of 'Rows of settings', with LOSS and without, and writes what they answer. The file `stdout`
// beside src/ has what document 01 asks, worked out by another implementation; the check compares the two.
#![tactic(auto)]

use input::read_full;
use lines::{Cursor, next_line, part};
use refusals::Refusal;
use row_read::{heading_of, is_other, read_named_row, read_row};
use row_read_model::Heading;
use settings_model::Settings;
use std::io;

fn main(rt: HostRuntime) -> io::Result<()> {
    texts(&rt)?;
    lossy_texts(&rt)?;
    named_rows(&rt)?;
    parts(&rt)?;
    // The text of `stdin`, with a row for each end of each range and for each way to break a row.
    let mut space = [0u8; 65536];
    let n = read_full(&mut rt.stdin(), &mut space)?;
    through(&rt, &space[..n])
}

// Texts whose name line is missing, differs or stands alone.
fn texts(rt: &impl Print) -> io::Result<()> {
    let texts: [&[u8]; 12] = [
        b"",
        b"\n",
        b"BO SO H NR NE OWN SINK BURST RATE HEAD DATA ACK",
        b"BO SO H NR NE OWN SINK BURST RATE HEAD DATA ACK\n",
        b"BO SO H NR NE OWN SINK BURST RATE HEAD DATA ACK\r\n8 4 1 2 1 0 0 1 1 19 7 0\n",
        b"BO SO H NR NE OWN SINK BURST RATE HEAD DATA ACK \n8 4 1 2 1 0 0 1 1 19 7 0\n",
        b" BO SO H NR NE OWN SINK BURST RATE HEAD DATA ACK\n8 4 1 2 1 0 0 1 1 19 7 0\n",
        b"BO SO H NR NE OWN SINK BURST RATE HEAD DATA\n8 4 1 2 1 0 0 1 1 19 7\n",
        b"bo so h nr ne own sink burst rate head data ack\n8 4 1 2 1 0 0 1 1 19 7 0\n",
        b"\nBO SO H NR NE OWN SINK BURST RATE HEAD DATA ACK\n8 4 1 2 1 0 0 1 1 19 7 0\n",
        b"BO SO H NR NE OWN SINK BURST RATE HEAD DATA ACK\n\n",
        b"BO SO H NR NE OWN SINK BURST RATE HEAD DATA ACK\n\n\n8 4 1 2 1 0 0 1 1 19 7 0",
    ];
    for text in texts {
        through(rt, text)?;
    }
    end(rt)
}

// Rows under 13 names (document 02, E5).
fn lossy_texts(rt: &impl Print) -> io::Result<()> {
    let texts: [&[u8]; 15] = [
        b"BO SO H NR NE OWN SINK BURST RATE HEAD DATA ACK LOSS",
        b"BO SO H NR NE OWN SINK BURST RATE HEAD DATA ACK LOSS \n8 4 1 2 1 0 0 1 1 19 7 0 0\n",
        b"BO SO H NR NE OWN SINK BURST RATE HEAD DATA ACK  LOSS\n8 4 1 2 1 0 0 1 1 19 7 0 0\n",
        b"BO SO H NR NE OWN SINK BURST RATE HEAD DATA LOSS ACK\n8 4 1 2 1 0 0 1 1 19 7 0 0\n",
        b"BO SO H NR NE OWN SINK BURST RATE HEAD DATA ACK LOSS LOSS\n8 4 1 2 1 0 0 1 1 19 7 0 0 0\n",
        b"BO SO H NR NE OWN SINK BURST RATE HEAD DATA ACK LOSS\n8 4 1 2 1 0 0 1 1 19 7 0 0\n8 4 1 2 1 0 0 1 1 19 7 1 0\n",
        b"BO SO H NR NE OWN SINK BURST RATE HEAD DATA ACK LOSS\n8 4 1 2 1 0 0 1 1 19 7 1 1\n8 4 1 2 1 0 0 1 1 19 7 1 7\n",
        b"BO SO H NR NE OWN SINK BURST RATE HEAD DATA ACK LOSS\n8 4 1 2 1 0 0 1 1 19 7 1 8\n8 4 1 2 1 0 0 1 1 19 7 2 8\n",
        b"BO SO H NR NE OWN SINK BURST RATE HEAD DATA ACK LOSS\n8 4 1 2 1 0 0 1 1 19 7 1 9999\n8 4 1 2 1 0 0 1 1 19 7 1 10000\n",
        b"BO SO H NR NE OWN SINK BURST RATE HEAD DATA ACK LOSS\n8 4 1 2 1 0 0 1 1 19 7 0 1\n8 4 1 2 1 0 0 1 1 126 2 0 1\n",
        b"BO SO H NR NE OWN SINK BURST RATE HEAD DATA ACK LOSS\n8 4 1 2 1 0 0 1 1 19 7 0\n8 4 1 2 1 0 0 1 1 19 7 0 \n",
        b"BO SO H NR NE OWN SINK BURST RATE HEAD DATA ACK LOSS\n8 4 1 2 1 0 0 1 1 19 7 0 x\n8 4 1 2 1 0 0 1 1 19 7 0 01\n",
        b"BO SO H NR NE OWN SINK BURST RATE HEAD DATA ACK LOSS\n8 4 1 2 1 0 0 1 1 19 7 0 0 \n8 4 1 2 1 0 0 1 1 19 7 0 0 0\n",
        b"BO SO H NR NE OWN SINK BURST RATE HEAD DATA ACK LOSS\n4 8 1 2 1 0 0 1 1 19 7 0 1\n4 8 1 2 1 0 0 1 1 19 7 0 8\n",
        b"BO SO H NR NE OWN SINK BURST RATE HEAD DATA ACK\n8 4 1 2 1 0 0 1 1 19 7 1 1\n8 4 1 2 1 0 0 1 1 19 7 1\n",
    ];
    for text in texts {
        through(rt, text)?;
    }
    end(rt)
}

// A row under a name line: the names come first.
fn named_rows(rt: &impl Print) -> io::Result<()> {
    let pairs: [(&[u8], &[u8]); 8] = [
        (b"", b""),
        (b"BO", b"8 4 1 2 1 0 0 1 1 19 7 0"),
        (
            b"BO SO H NR NE OWN SINK BURST RATE HEAD DATA ACK\n",
            b"8 4 1 2 1 0 0 1 1 19 7 0",
        ),
        (
            b"BO SO H NR NE OWN SINK BURST RATE HEAD DATA ACK",
            b"8 4 1 2 1 0 0 1 1 19 7 0",
        ),
        (
            b"BO SO H NR NE OWN SINK BURST RATE HEAD DATA ACK",
            b"8 4 1 2 1 0 0 1 1 19 7 0\n",
        ),
        (b"BO SO H NR NE OWN SINK BURST RATE HEAD DATA ACK", b""),
        (
            b"BO SO H NR NE OWN SINK BURST RATE HEAD DATA ACK LOSS",
            b"8 4 1 2 1 0 0 1 1 19 7 1 3",
        ),
        (b"BO SO H NR NE OWN SINK BURST RATE HEAD DATA ACK LOSS", b""),
    ];
    for (names, row) in pairs {
        answer(rt, read_named_row(names, row))?;
    }
    Ok(())
}

// Parts that a text has and has not.
fn parts(rt: &impl Print) -> io::Result<()> {
    word(rt, part(b"abcdef", 1, 3))?;
    end(rt)?;
    word(rt, part(b"abcdef", 0, 6))?;
    end(rt)?;
    word(rt, part(b"abcdef", 3, 1))?;
    word(rt, part(b"abcdef", 0, 7))?;
    word(rt, part(b"abcdef", 6, 6))?;
    end(rt)
}

// A text's name line and rows.
fn through(rt: &impl Print, text: &[u8]) -> io::Result<()> {
    let Some(line) = next_line(text, Cursor { at: 0 }) else {
        return refused(rt, Refusal::Names);
    };
    let heading = heading_of(part(text, line.start, line.end));
    if is_other(heading) {
        refused(rt, Refusal::Names)
    } else {
        rows(rt, heading, text, line.next)
    }
}

// Where each row of a text starts and ends, and what it is.
fn rows(rt: &impl Print, heading: Heading, text: &[u8], first: Cursor) -> io::Result<()> {
    let mut cursor = first;
    while let Some(line) = next_line(text, cursor) {
        row_line(rt, heading, text, line.start, line.end)?;
        cursor = line.next;
    }
    Ok(())
}

fn row_line(
    rt: &impl Print,
    heading: Heading,
    text: &[u8],
    start: usize,
    end: usize,
) -> io::Result<()> {
    word(rt, b"row")?;
    number(rt, start as u64)?;
    number(rt, end as u64)?;
    word(rt, b" ")?;
    answer(rt, read_row(heading, part(text, start, end)))
}

fn answer(rt: &impl Print, row: Result<Settings, Refusal>) -> io::Result<()> {
    match checked(row) {
        Ok(settings) => read(rt, settings),
        Err(refusal) => refused(rt, refusal),
    }
}

// Settings that keep numbers 3 and 4, or the refusal.
fn checked(row: Result<Settings, Refusal>) -> Result<Settings, Refusal> {
    let settings = row?;
    settings::check(settings)?;
    Ok(settings)
}

fn refused(rt: &impl Print, refusal: Refusal) -> io::Result<()> {
    word(rt, b"R")?;
    number(rt, u64::from(refusal.number()))?;
    number(rt, u64::from(refusal.place()))?;
    end(rt)
}

fn read(rt: &impl Print, s: Settings) -> io::Result<()> {
    word(rt, b"read")?;
    for value in [
        s.bo, s.so, s.h, s.nr, s.ne, s.own, s.sink, s.burst, s.rate, s.head, s.payload, s.ack,
        s.loss,
    ] {
        number(rt, value)?;
    }
    end(rt)
}

fn word(rt: &impl Print, text: &[u8]) -> io::Result<()> {
    rt.write_all(text)
}

fn number(rt: &impl Print, n: u64) -> io::Result<()> {
    word(rt, b" ")?;
    rt.print(n)
}

fn end(rt: &impl Print) -> io::Result<()> {
    word(rt, b"\n")
}
