// The life of one request, by value: a change of its line, and a completion. Leaves: no arrays, no state. They are on the bytes that a
// state holds, with the arguments of the definitions.
ghost use Rattle.std.specs.Prelude.{◌≡◌, cond, ◌+◌, ltb};
ghost use Rattle.limits.specs.Limits.{most_edges};
ghost use Rattle.model.specs.Life.{level_changed, edge_changed, line_changed, completed};

use limits::MOST_EDGES;
use model::{Kind, Request, Stage};

// A level source: idle with the line high becomes pending at once.
#[tactic(auto, unfolding(model::specs::Life::level_changed, model::specs::Life::raised, model::specs::Life::line_at, model::specs::Waits::is_idle))]
fn level_changed(clock: u32, level: bool, r: Request) -> Request
    ensures { result ≡ level_changed clock level r }
{
    if r.stage == Stage::Idle as u8 && level {
        return Request {
            stage: Stage::Pending as u8,
            line: level,
            start: clock,
            ..r
        };
    }
    Request { line: level, ..r }
}

// One edge more, staying at the most once there. By hand: `saturating_add` would stay at the most of a byte, and not at that of `limits`.
fn one_more(extra: u8) -> u8
    ensures { result ≡ cond (ltb extra most_edges) (extra + 1) extra }
{
    if extra < MOST_EDGES { extra + 1 } else { extra }
}

// An edge source: a change from low to high makes it pending if idle, and counts for kind 2 otherwise.
#[tactic(auto, unfolding(model::specs::Life::edge_changed, model::specs::Life::edge_counted, model::specs::Life::raised, model::specs::Life::line_at, model::specs::Waits::is_idle))]
fn edge_changed(kind: u8, clock: u32, level: bool, r: Request) -> Request
    ensures { result ≡ edge_changed kind clock level r }
{
    if !r.line && level {
        if r.stage == Stage::Idle as u8 {
            return Request {
                stage: Stage::Pending as u8,
                line: level,
                start: clock,
                ..r
            };
        }
        if kind == Kind::Counting as u8 {
            return Request {
                line: level,
                extra: one_more(r.extra),
                ..r
            };
        }
    }
    Request { line: level, ..r }
}

// The request after its source's line is set to a level. One test on the kind, as the definition.
#[tactic(auto, unfolding(model::specs::Life::line_changed))]
pub fn line_changed(kind: u8, clock: u32, level: bool, r: Request) -> Request
    ensures { result ≡ line_changed kind clock level r }
{
    if kind == Kind::Level as u8 {
        return level_changed(clock, level, r);
    }
    edge_changed(kind, clock, level, r)
}

// The request after a completion that takes effect: idle, or pending again at once.
#[tactic(auto, unfolding(model::specs::Life::completed, model::specs::Life::raised, model::specs::Life::edge_taken, model::specs::Life::idled))]
pub fn completed(kind: u8, clock: u32, r: Request) -> Request
    ensures { result ≡ completed kind clock r }
{
    if kind == Kind::Level as u8 && r.line {
        return Request {
            stage: Stage::Pending as u8,
            start: clock,
            ..r
        };
    }
    if kind == Kind::Counting as u8 && 0 < r.extra {
        return Request {
            stage: Stage::Pending as u8,
            extra: r.extra - 1,
            start: clock,
            ..r
        };
    }
    Request {
        stage: Stage::Idle as u8,
        start: 0,
        ..r
    }
}
