// A line's answer, written.
use replies::lists;
use replies::out::Out;
use replies::say::{At, Cell, Next, Pair, Point, Step, Told, Truth, Walk};
use requests::Answer;
use std::fmt::{Display, Write};
use words::Line;

// `Out` tells of no error, so that there is none to hand on.
pub fn answer(out: &mut Out, line: &Line) {
    match requests::answer(line) {
        Some(answer) => write_answer(out, answer),
        None => write(out, "input"),
    }
    write(out, "\n");
}

fn write<T: Display + Drop>(out: &mut Out, text: T) {
    let _ = write!(out, "{text}");
}

fn write_answer(out: &mut Out, answer: Answer) {
    match answer {
        Answer::Checked(a) => write(out, Told(a.map(|()| "ok"))),
        Answer::Number(a) => write(out, Told(a)),
        Answer::List(raw, target) => lists::list(out, raw, target),
        Answer::ListInRoom(raw, target, room) => lists::list_in_room(out, raw, target, room),
        Answer::Cell(a) => write(out, Told(a.map(Cell))),
        Answer::Point(a) => write(out, Told(a.map(Point))),
        Answer::Pair(a) => write(out, Told(a.map(Pair))),
        Answer::Truth(a) => write(out, Told(a.map(Truth))),
        Answer::Started(a) => write(out, Told(a.map(At))),
        Answer::Given(a) => write(out, Next(a)),
        Answer::Walked(a) => write(out, Told(a.map(Walk))),
        Answer::Stepped(a) => write(out, Told(a.map(Step))),
    }
}
