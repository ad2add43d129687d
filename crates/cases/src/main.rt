// Puts the lines of a session to session::line, and prints each with its answer: the worked session, then the edges.
#![tactic(auto)]

use arrayvec::ArrayString;
use session::Desk;

// The lines of the session.
const LINES: &str = "(open 4 2)\n\
(add (under 1 0))\n\
(add (under 2 0))\n\
(add (under 3 1))\n\
(add (under 3 2))\n\
(add (rule 0 0 10))\n\
(find 3 0)\n\
(add (rule 1 0 20))\n\
(find 3 0)\n\
(add (under 0 3))\n\
(add (rule 2 0 20))\n\
(take (under 3 2))\n\
(find 3 0)\n\
(find 3 1)\n\
(find 4 0)\n\
(open 129 64)\n(open 128 65)\n(find 3 0)\n\
(add (under 3 3))\n\
(add (rule 3 1 0))\n(add (rule 3 1 1))\n(find 3 1)\n(add (rule 3 1 65535))\n(find 3 1)\n\
(these 64 bytes are as many as a line may have, and are no form)\n\
(these 65 bytes are one more than any line may have, and no form)\n\
(open 128 64)\n(find 127 63)\n(add (under 127 127))\n";

// Carries out a line and prints it with its answer.
fn show<R: Print>(rt: &R, desk: &mut Desk, line: &str) {
    let mut text = ArrayString::<64>::new();
    session::line(desk, line.as_bytes(), &mut text);
    let _ = println!(rt; "{line} -> {text}");
}

fn main(rt: HostRuntime) {
    let mut desk = Desk::new();
    for line in LINES.lines() {
        show(&rt, &mut desk, line);
    }
}
