// A set of lines, a bit each, so that emptiness and the highest level are a test or a few.
// Contracts see it through `lines_of`, a function from numbers, which a model's value cannot be.
ghost use Rattle.std.specs.Prelude.{◌<◌};

mod methods;

#[derive(Clone, Copy)]
pub struct Lines {
    bits: u16,
    ghost ok: { bits < 2048 },
}
