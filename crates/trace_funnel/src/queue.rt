//! The queues of a funnel, one for each place.

ghost use Rattle.std.specs.Prelude.{◌≡◌, ◌≤◌, ◌<◌, ◌+◌, ◌^◌, ◌++◌, [], length, map, position, ◌==◌, IfOk, IfSome};
ghost use Rattle.std.specs.List.{AllByRecursion};
ghost use Rattle.arrayvec.specs.ArrayVec.{array_vec_len};
ghost use Rattle.trace_funnel.specs.Turns.{is_busy, waits, served, given, longer, tagged, turn};

use crate::tagged::Tagged;
use arrayvec::ArrayVec;
use circular_buffer::HeapCircularBuffer;
use std::alloc::{AllocError, Global};
use trace_values::SourceId;

/// The most bytes that a turn gives.
pub const MOST_HELD: usize = 15;

/// A place of a funnel: the bytes of its source that were offered and not given yet, from the oldest to the newest.
#[derive(Drop)]
pub struct Queue {
    pub id: SourceId,
    pub bytes: HeapCircularBuffer<u8>,
    // How many bytes others gave since this one gave, or since it has bytes: 0 where it has none.
    pub waited: u64,
}

/// Appends these bytes, tagged with an ID.
fn tag_all<const N: usize>(id: SourceId, bytes: &[u8], out: &mut ArrayVec<Tagged, N>)
    requires room { array_vec_len out.old + length bytes.now ≤ N }
    ensures items { out.new.items ≡ out.old.items ++ tagged id bytes.now }
    ensures len { array_vec_len out.new ≡ array_vec_len out.old + length bytes.now }
{
    for byte in bytes {
        out.push(Tagged { id, byte: *byte });
    }
}

impl Queue {
    ghost use Rattle.trace_funnel.specs.Queues.{place_of, room_of};

    /// An empty queue of this source, with the memory for so many bytes.
    pub fn new(alloc: Global, id: SourceId, depth: usize) -> Result<Queue, AllocError>
        ensures place { IfOk result (λ q. place_of q ≡ record { id = id; queue = []; waited = 0 }) }
        ensures room { IfOk result (λ q. room_of q ≡ depth) }
    {
        let bytes = HeapCircularBuffer::with_capacity(alloc, depth)?;
        Ok(Queue {
            id,
            bytes,
            waited: 0,
        })
    }

    /// Whether it has bytes.
    pub fn is_busy(&self) -> bool
        ensures { result ≡ is_busy (place_of self.now) }
    {
        !self.bytes.is_empty()
    }

    /// Waits while another gives so many bytes.
    pub fn wait(&mut self, count: u64)
        requires few { self.old.waited + count < 2 ^ 64 }
        ensures place { place_of self.new ≡ waits count (place_of self.old) }
        ensures room { room_of self.new ≡ room_of self.old }
    {
        if self.is_busy() {
            self.waited += count;
        }
    }

    /// Takes a byte, for which there is room.
    pub fn put(&mut self, byte: u8)
        requires room { length self.old.bytes.items < room_of self.old }
        ensures place { place_of self.new ≡ longer byte (place_of self.old) }
        ensures room { room_of self.new ≡ room_of self.old }
    {
        self.bytes.push_back(byte);
    }

    /// Gives its first bytes, at most so many, and waits anew.
    pub fn give<const N: usize>(&mut self, hold: usize, out: &mut ArrayVec<Tagged, N>)
        requires few { hold ≤ MOST_HELD }
        requires room { array_vec_len out.old + hold ≤ N }
        ensures given { out.new.items ≡ out.old.items ++ given hold (place_of self.old) }
        ensures len { array_vec_len out.new ≤ array_vec_len out.old + hold }
        ensures place { place_of self.new ≡ served hold (place_of self.old) }
        ensures room { room_of self.new ≡ room_of self.old }
    {
        let mut bytes = [0; MOST_HELD];
        let count = self.bytes.read_into(&mut bytes[..hold]);
        tag_all(self.id, &bytes[..count], out);
        self.waited = 0;
    }
}

ghost use Rattle.std.specs.Prelude.{List, ◌∷◌, ℕ};
ghost use Rattle.trace_funnel.specs.Turns.{Place, empty, put, queue_of, waited_of};
ghost use Rattle.trace_funnel.specs.Kept.{count};
ghost use Rattle.trace_funnel.specs.Queues.{place_of, places_of, rooms_of, after_turn, HaveRoom};

/// The empty queues of these sources, in this order, each with the memory for so many bytes.
pub fn queues_of(alloc: Global, order: &[SourceId], depth: usize) -> Result<Vec<Queue>, AllocError>
    ensures places { IfOk result (λ qs. places_of qs.items ≡ empty order.now) }
    ensures rooms { IfOk result (λ qs. rooms_of qs.items ≡ map (λ _. depth) order.now) }
{
    let mut queues = Vec::with_capacity(alloc, order.len())?;
    for id in order {
        let queue = Queue::new(alloc, *id, depth)?;
        queues.push(queue)?;
    }
    Ok(queues)
}

/// Which of these is the first that has bytes.
pub fn first_busy(queues: &[Queue]) -> Option<usize>
    ensures value { result ≡ position (λ q. is_busy (place_of q)) queues.now }
    ensures within { IfSome result (λ index. index < length queues.now) }
{
    queues.iter().position(|queue| queue.is_busy())
}

/// How many bytes are in the queue of this source; 0 where it has none.
pub fn count_in(queues: &[Queue], id: SourceId) -> usize
    ensures { result ≡ length (queue_of id (places_of queues.now)) }
{
    let Some((queue, rest)) = queues.split_first() else {
        return 0;
    };
    if queue.id == id {
        queue.bytes.len()
    } else {
        count_in(rest, id)
    }
}

/// How long the queue of this source waited; 0 where it has none.
pub fn waited_in(queues: &[Queue], id: SourceId) -> u64
    ensures { result ≡ waited_of id (places_of queues.now) }
{
    let Some((queue, rest)) = queues.split_first() else {
        return 0;
    };
    if queue.id == id {
        queue.waited
    } else {
        waited_in(rest, id)
    }
}

/// Puts a byte into the queue of this source, which has one at most, with fewer bytes than a queue may have.
pub fn put_in(queues: &mut [Queue], id: SourceId, byte: u8)
    requires one { count id (places_of queues.old) ≤ 1 }
    requires room { AllByRecursion (λ room. length (queue_of id (places_of queues.old)) < room) (rooms_of queues.old) }
    ensures places { places_of queues.new ≡ put id byte (places_of queues.old) }
    ensures rooms { rooms_of queues.new ≡ rooms_of queues.old }
{
    let Some((queue, rest)) = queues.split_first_mut() else {
        return;
    };
    if queue.id == id {
        queue.put(byte);
    } else {
        put_in(rest, id, byte);
    }
}

/// All that have bytes wait while another gives so many.
fn wait_all(queues: &mut [Queue], count: u64)
    requires { AllByRecursion (λ p. p.waited + count < 2 ^ 64) (places_of queues.old) }
    ensures places { places_of queues.new ≡ map (λ p. waits count p) (places_of queues.old) }
    ensures rooms { rooms_of queues.new ≡ rooms_of queues.old }
{
    let Some((queue, rest)) = queues.split_first_mut() else {
        return;
    };
    queue.wait(count);
    wait_all(rest, count);
}

/// The queue of this place gives its first bytes, at most so many, and all others wait while it does.
fn serve<const N: usize>(
    queues: &mut [Queue],
    place: usize,
    hold: usize,
    out: &mut ArrayVec<Tagged, N>,
)
    requires place { place < length queues.old }
    requires hold { hold ≤ MOST_HELD }
    requires few { AllByRecursion (λ p. p.waited ≤ 2 ^ 32) (places_of queues.old) }
    requires room { array_vec_len out.old + hold ≤ N }
    ensures given { (front back : List Place) (p : Place) → places_of queues.old ≡ front ++ (p ∷ back) →
        length front ≡ place → out.new.items ≡ out.old.items ++ given hold p }
    ensures places { (front back : List Place) (p : Place) → places_of queues.old ≡ front ++ (p ∷ back) →
        length front ≡ place → places_of queues.new ≡ after_turn hold front p back }
    ensures len { array_vec_len out.new ≤ array_vec_len out.old + hold }
    ensures rooms { rooms_of queues.new ≡ rooms_of queues.old }
{
    let count = hold.min(queues[place].bytes.len());
    wait_all(queues, count as u64);
    queues[place].give(hold, out);
}

/// Makes a turn: the first that has bytes gives its first ones, at most so many, and then it and those before it go
/// behind the others.
pub fn turn<const N: usize>(queues: &mut [Queue], hold: usize, out: &mut ArrayVec<Tagged, N>)
    requires hold { hold ≤ MOST_HELD }
    requires few { AllByRecursion (λ p. p.waited ≤ 2 ^ 32) (places_of queues.old) }
    requires room { array_vec_len out.old + hold ≤ N }
    ensures given { out.new.items ≡ out.old.items ++ (turn hold (places_of queues.old)).out }
    ensures places { places_of queues.new ≡ (turn hold (places_of queues.old)).places }
    ensures len { array_vec_len out.new ≤ array_vec_len out.old + hold }
    ensures rooms { (depth : ℕ) → HaveRoom depth queues.old → HaveRoom depth queues.new }
{
    let Some(place) = first_busy(queues) else {
        return;
    };
    serve(queues, place, hold, out);
    queues.rotate_left(place + 1);
}
