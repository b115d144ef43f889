// What the program says of itself, where it was started with an argument.
use std::io::Stdout;

pub fn help(to: Stdout, word: &[u8]) {
    let text = match word {
        b"-h" | b"--help" => FORMS,
        _ => "hexline: takes no argument but --help; requests come on standard input\n",
    };
    let _ = to.write_all(text.as_bytes());
}

const FORMS: &str = "hexline answers each line of standard input, a request, with one line.

check H                      ok
count H T                    a count
list H T                     the cells, at most 8192
list H T ROOM                COUNT : the elements of a buffer of ROOM, 0 to 8192
short H ROOM                 the same, one resolution down
childat H T P                a cell
position H H                 a position
ancestor H R                 a cell
cursor H T                   a cursor: OWN TARGET H SKIP LEFT
next OWN TARGET H SKIP LEFT  a cell or Done, then : and the cursor handed back
turn W H N                   a number
pentturn W H                 a number
centre H                     a point
readback LENGTH I J K        a cell
walk H D                     a number and the carry
step H D                     Inside H TURN, or Leaves D
unit D                       a point
drot W D N                   a direction
neighbour I J K D            a point
normalise I J K              a point
ij I J K                     a pair
fromij I J                   a point
dirof I J K                  a direction
same I J K I J K             yes or no
distance I J K I J K         a number
down7, down3, up7 or turnpoint, then W I J K: a point

H is a cell, 1 to 16 hexadecimal digits in lower case. All else is decimal: T and R a
resolution, P a position, N a count, D a direction, I J K a point. W is ccw or cw.
What is refused: refusal N. A line of no such form: input.
";
