// The examples of document 01, "Examples on each side of a line", that are not marked P and concern the calls: each is run, and what
// it answers is written and held to the file `stdout`.
#![tactic(auto)]

use model::{Refusal, State};

// What a call answered, on a line after its label. A line that cannot be written is let go. Two arms: a `Result` has no `Display`.
fn show(rt: &impl Print, label: &str, got: Result<u32, Refusal>) {
    let _ = match got {
        Ok(v) => println!(rt; "{label}: {v}"),
        Err(why) => println!(rt; "{label}: refused {}", plic::number_of(why)),
    };
}

// N = 3, C = 2, b = 3, one source of each kind.
fn small_board() -> State {
    plic::make(3, 2, 3, &[0, 1, 2]).state
}

// "Clock 4,294,967,290: advance 5 accepted, 6 refused with 8. Advance 0 accepted."
fn clock_end(rt: &impl Print) {
    let mut late = small_board();
    let _ = plic::advance(&mut late, 4294967290);
    for (label, ticks) in [("advance 5", 5), ("advance 6", 6), ("advance 0", 0)] {
        let mut board = late;
        show(rt, label, plic::advance(&mut board, ticks));
    }
}

// "Offset 0x3FFFFFC reads 0; 0x4000000 gives 4; 0x4000001 gives 4, not 5."
fn offset_end(rt: &impl Print) {
    let mut board = small_board();
    show(rt, "read 3FFFFFC", plic::read(&mut board, 0x3FFFFFC));
    show(rt, "read 4000000", plic::read(&mut board, 0x4000000));
    show(rt, "read 4000001", plic::read(&mut board, 0x4000001));
    show(rt, "read 3FFFFFD", plic::read(&mut board, 0x3FFFFFD));
    show(rt, "read 3FFFFF9", plic::read(&mut board, 0x3FFFFF9));
}

// "Source 127 at N = 127 is bit 31 of word 3; 128 gives 6."
fn last_source(rt: &impl Print) {
    let mut board = plic::make(127, 1, 1, &[1; 127]).state;
    let _ = plic::line(&mut board, 127, true);
    show(rt, "pending word 3", plic::read(&mut board, 0x100C));
    show(rt, "line 128", plic::line(&mut board, 128, true));
    show(rt, "line 0", plic::line(&mut board, 0, true));
}

// What else stands on each side of a line: a shape, the steps, a context, a per mille.
fn other_ends(rt: &impl Print) {
    show(
        rt,
        "make 128 sources",
        plic::make(128, 1, 1, &[0; 128]).answer,
    );
    show(rt, "make kind 3", plic::make(1, 1, 1, &[3]).answer);
    let mut board = small_board();
    board.steps = 4294967294;
    show(rt, "last step", plic::advance(&mut board, 1));
    show(rt, "step too many", plic::advance(&mut board, 1));
    show(rt, "notification 1", plic::notification(&board, 1));
    show(rt, "notification 2", plic::notification(&board, 2));
    show(rt, "percentile 0", plic::by_claim(&board, 0));
    show(
        rt,
        "percentile 1000, no claims",
        plic::by_time(&board, 1000),
    );
    board.shape.bits = 6;
    show(rt, "six bits", plic::read(&mut board, 0));
}

fn main(rt: HostRuntime) {
    clock_end(&rt);
    offset_end(&rt);
    last_source(&rt);
    other_ends(&rt);
}
