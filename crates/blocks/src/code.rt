// The code of a store: k data blocks become n, at most c of them in a rack.
ghost use Rattle.std.specs.Prelude.{◌≡◌, ℕ, ◌-◌, ◌<◌, ◌≤◌, MatchOption};
ghost use Rattle.blocks.specs.Codes.{Within};

/// The most data blocks, and the most blocks, of a stripe.
pub const DATA: u32 = 16;

pub const ALL: u32 = 24;

/// n, k and c within their limits.
#[derive(Clone, Copy)]
pub struct Code {
    pub n: u32,
    pub k: u32,
    pub c: u32,
    ghost some: { 1 ≤ k },
    ghost small: { k ≤ 16 },
    ghost more: { k < n },
    ghost few: { n ≤ 24 },
    ghost kept: { 1 ≤ c },
    ghost spare: { c ≤ n - k },
}

impl Code {
    /// The code of three numbers that may be any.
    pub fn new(n: u32, k: u32, c: u32) -> Option<Code>
        ensures { MatchOption result (Within n k c → ⊥) (λ o. Within n k c × (o.n ≡ n) × (o.k ≡ k) × (o.c ≡ c)) }
    {
        if k < 1 || k > DATA || n <= k || n > ALL || c < 1 || c > n - k {
            return None;
        }
        Some(Code { n, k, c })
    }

    pub fn n(&self) -> u32
        ensures { result ≡ self.now.n }
    {
        self.n
    }

    pub fn k(&self) -> u32
        ensures { result ≡ self.now.k }
    {
        self.k
    }

    pub fn c(&self) -> u32
        ensures { result ≡ self.now.c }
    {
        self.c
    }
}
