// The seed from draw to draw: "1664525 times the seed plus 1013904223, modulo 4294967296".
ghost use Rattle.std.specs.Prelude.{◌≡◌, ◌*◌, ◌%◌, ◌^◌};
ghost use Rattle.semantics.specs.Practice.{next_seed};

const MULTIPLIER: u32 = 1664525;

const INCREMENT: u32 = 1013904223;

// a * b, modulo 2^32. A helper of its own: document 01 names this form.
fn wrapping_mul_u32(a: u32, b: u32) -> u32
    ensures wraps { result ≡ (a * b) % 2 ^ 32 }
{
    a.wrapping_mul(b)
}

#[derive(Clone, Copy)]
pub struct Generator {
    pub seed: u32,
}

impl Generator {
    // One draw: the generator with the next seed. By value: document 01 names this form.
    pub fn draw(self) -> Generator
        ensures { result.seed ≡ next_seed self.seed }
    {
        let product = wrapping_mul_u32(MULTIPLIER, self.seed);
        Generator {
            seed: product.wrapping_add(INCREMENT),
        }
    }
}
