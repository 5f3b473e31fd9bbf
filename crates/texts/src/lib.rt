// The texts of generation.
#![tactic(auto)]

// The literals of the texts: `1'b0` and `1'b1`; `0`, `1` and `z`; the word `high`.
#[derive(Clone, Copy)]
pub enum Literal {
    BitZero,
    BitOne,
    Zero,
    One,
    Z,
    High,
}
