// The number of a message without lists: any but that of HELLO.
ghost use Rattle.std.specs.Prelude.{◌≡◌};

#[derive(Clone, Copy, Debug, PartialEq, Eq)]
pub(crate) struct PlainNumber {
    pub(crate) number: u32,
    ghost not_hello: { number ≡ 1 → ⊥ },
}
