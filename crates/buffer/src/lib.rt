// Bytes put at the front of a buffer that the caller lends. Each function answers how many.
#![tactic(auto)]

ghost use Rattle.std.specs.Prelude.{ℕ, List, [], ◌∷◌, ◌<◌, ◌≤◌, ◌≡◌, length};
ghost use Rattle.buffer.specs.Put.{Put};
ghost use Rattle.buffer.specs.Parts.{parts};

// One byte.
pub fn put_byte(b: u8, out: &mut [u8]) -> usize
    requires { 1 ≤ length out.old }
    ensures { Put (b ∷ []) out.old out.new result }
{
    out[0] = b;
    1
}

// The bytes bs.
pub fn put_bytes(bs: &[u8], out: &mut [u8]) -> usize
    requires { length bs.now ≤ length out.old }
    ensures { Put bs.now out.old out.new result }
{
    out[..bs.len()].copy_from_slice(bs);
    bs.len()
}

// Pieces of bytes, numbered from 0.
pub trait Pieces {
    ghost can_put: { Self → Type 0 };

    ghost count: { Self → ℕ };

    ghost piece: { Self → ℕ → List ℕ };

    fn count(&self) -> usize
        ensures { result ≡ count self.now };

    fn put(&self, i: usize, out: &mut [u8]) -> usize
        requires { can_put self.now × (i < count self.now) × (length (piece self.now i) ≤ length out.old) }
        ensures { Put (piece self.now i) out.old out.new result };
}

// All pieces, each behind the one before.
pub fn put_pieces<P: Pieces>(pieces: &P, out: &mut [u8]) -> usize
    requires { P.can_put pieces.now × (length (parts (P.piece pieces.now) (P.count pieces.now)) ≤ length out.old) }
    ensures { Put (parts (P.piece pieces.now) (P.count pieces.now)) out.old out.new result }
{
    let mut at = 0;
    for i in 0..pieces.count() {
        let n = pieces.put(i, &mut out[at..]);
        at += n;
    }
    at
}
