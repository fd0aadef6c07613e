// The requests of the sources, the only place that knows how a stage is held. Leaves: the requests that
// are lent and numbers only.
ghost use Rattle.std.specs.Prelude.{◌≡◌, ℕ, ◌+◌, ◌*◌, ◌<◌};
ghost use Rattle.limits.specs.Limits.{source_room, word_room};
ghost use Rattle.laws.specs.Bits.{packed};
ghost use Rattle.model.specs.Board.{request, set_request};
ghost use Rattle.model.specs.Waits.{is_pending, is_in_service};

use model::{Request, Requests, Stage};

// Whether source i is pending. Two functions, this and the next: document 01 has two words.
#[tactic(auto, unfolding(model::specs::Waits::is_pending, model::specs::Board::request))]
pub fn is_pending(requests: &Requests, i: usize) -> bool
    requires { i < source_room }
    ensures { result ≡ is_pending (request requests.now i) }
{
    requests.stage[i] == Stage::Pending as u8
}

// Whether source i is in service.
#[tactic(auto, unfolding(model::specs::Waits::is_in_service, model::specs::Board::request))]
pub fn is_in_service(requests: &Requests, i: usize) -> bool
    requires { i < source_room }
    ensures { result ≡ is_in_service (request requests.now i) }
{
    requests.stage[i] == Stage::InService as u8
}

// The request of source i.
#[tactic(auto, unfolding(model::specs::Board::request))]
pub fn request_of(requests: &Requests, i: usize) -> Request
    requires { i < source_room }
    ensures { result ≡ request requests.now i }
{
    Request {
        stage: requests.stage[i],
        line: requests.line[i],
        extra: requests.extra[i],
        start: requests.start[i],
    }
}

// The request of source i is now this one.
#[tactic(auto, unfolding(model::specs::Board::set_request))]
pub fn put_request(requests: &mut Requests, i: usize, r: Request)
    requires { i < source_room }
    ensures { requests.new ≡ set_request requests.old i r }
{
    requests.stage[i] = r.stage;
    requests.line[i] = r.line;
    requests.extra[i] = r.extra;
    requests.start[i] = r.start;
}

// The pending bits of the sources 32w to 32w + 31.
pub fn pending_word(requests: &Requests, w: usize) -> u32
    requires { w < word_room }
    ensures { result ≡ packed (λ j. is_pending (request requests.now (w * 32 + j))) 32 }
{
    let mut word = 0u32;
    for j in 0..32 {
        if is_pending(requests, w * 32 + j) {
            word += 1 << j;
        }
    }
    word
}
