// What is written for each kind of answer.
use hexagons::{Cursor, Given, IJ, IJK, Refusal, Stepped, Walked};
use std::fmt;
use std::fmt::{Display, Formatter};

// An answer, or the refusal.
#[derive(Drop)]
pub struct Told<T>(pub Result<T, Refusal>);

impl<T: Display> Display for Told<T> {
    fn fmt<W: fmt::Write>(&self, f: &mut Formatter<W>) -> fmt::Result {
        match &self.0 {
            Ok(answer) => write!(f, "{answer}"),
            Err(refusal) => write!(f, "{refusal}"),
        }
    }
}

// A blank and the 16 digits of a cell. By `{:016x}` a listing takes three times as long to write.
fn parted(n: u64) -> [u8; 17] {
    let mut text = [b' '; 17];
    hex::encode_to_slice(&n.to_be_bytes(), &mut text[1..]).unwrap();
    text
}

fn write_ascii<W: fmt::Write>(f: &mut Formatter<W>, text: &[u8]) -> fmt::Result {
    f.write_str(str::from_utf8(text).map_err(|_| fmt::Error)?)
}

#[derive(Drop)]
pub struct Cell(pub u64);

impl Display for Cell {
    fn fmt<W: fmt::Write>(&self, f: &mut Formatter<W>) -> fmt::Result {
        write_ascii(f, &parted(self.0)[1..])
    }
}

// Cells with a blank between.
#[derive(Drop)]
pub struct Cells<'a>(pub &'a [u64]);

impl Display for Cells<'_> {
    fn fmt<W: fmt::Write>(&self, f: &mut Formatter<W>) -> fmt::Result {
        for (i, n) in self.0.iter().enumerate() {
            let from = if i == 0 { 1 } else { 0 };
            write_ascii(f, &parted(*n)[from..])?;
        }
        Ok(())
    }
}

#[derive(Drop)]
pub struct Truth(pub bool);

impl Display for Truth {
    fn fmt<W: fmt::Write>(&self, f: &mut Formatter<W>) -> fmt::Result {
        f.write_str(if self.0 { "yes" } else { "no" })
    }
}

#[derive(Drop)]
pub struct Point(pub IJK);

impl Display for Point {
    fn fmt<W: fmt::Write>(&self, f: &mut Formatter<W>) -> fmt::Result {
        let IJK { i, j, k } = self.0;
        write!(f, "{i} {j} {k}")
    }
}

#[derive(Drop)]
pub struct Pair(pub IJ);

impl Display for Pair {
    fn fmt<W: fmt::Write>(&self, f: &mut Formatter<W>) -> fmt::Result {
        let IJ { i, j } = self.0;
        write!(f, "{i} {j}")
    }
}

#[derive(Drop)]
pub struct At(pub Cursor);

impl Display for At {
    fn fmt<W: fmt::Write>(&self, f: &mut Formatter<W>) -> fmt::Result {
        let Cursor {
            own,
            target,
            number,
            skip,
            left,
        } = self.0;
        write!(f, "{own} {target} {} {skip} {left}", Cell(number))
    }
}

// What a call gave, and the cursor that it handed back.
#[derive(Drop)]
pub struct Next(pub Given);

impl Display for Next {
    fn fmt<W: fmt::Write>(&self, f: &mut Formatter<W>) -> fmt::Result {
        match self.0 {
            Given::Child(child, c) => write!(f, "{} : {}", Cell(child), At(c)),
            Given::Done(c) => write!(f, "Done : {}", At(c)),
            Given::Refused(c) => write!(f, "{} : {}", Refusal::Position, At(c)),
        }
    }
}

#[derive(Drop)]
pub struct Walk(pub Walked);

impl Display for Walk {
    fn fmt<W: fmt::Write>(&self, f: &mut Formatter<W>) -> fmt::Result {
        let Walked { number, carry } = self.0;
        write!(f, "{} {carry}", Cell(number))
    }
}

#[derive(Drop)]
pub struct Step(pub Stepped);

impl Display for Step {
    fn fmt<W: fmt::Write>(&self, f: &mut Formatter<W>) -> fmt::Result {
        match self.0 {
            Stepped::Inside(cell, turn) => write!(f, "Inside {} {turn}", Cell(cell)),
            Stepped::Leaves(way) => write!(f, "Leaves {way}"),
        }
    }
}
