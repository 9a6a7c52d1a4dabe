// Operations: what the val3 of a WAKE_OP stands for. It stands on rules.
#![tactic(auto)]

ghost use Rattle.std.specs.Prelude.{◌≡◌, ◌+◌, ◌%◌};
ghost use Rattle.tables.specs.Sizes.{word_bits, word_limit};
ghost use Rattle.rules.specs.Signed.{signed, modulo, turned};
ghost use Rattle.rules.specs.WakeOp.{arg_bits, op_field, cmp_field, op_arg, cmp_arg, undefined_op, operand, new_word, compares};

// From the top, val3 has 4 bits op, 4 cmp, 12 oparg and 12 cmparg: where each begins, and how many values it has.
const OP_AT: u32 = 1 << 28;

const CMP_AT: u32 = 1 << 24;

const OPARG_AT: u32 = 1 << 12;

const CODES: u32 = 1 << 4;

const ARGS: u32 = 1 << 12;

// The bit of op that makes oparg a shift (FUTEX_OP_OPARG_SHIFT); the operation is the bits below it.
const OPARG_SHIFT: u32 = 8;

// The last operation and the last comparison that are defined (FUTEX_OP_XOR, FUTEX_OP_CMP_GE).
const OP_XOR: u32 = 4;

const CMP_GE: u32 = 5;

const WORD_BITS: u32 = 32;

// The top bit of a word.
const SIGN: u32 = 1 << (WORD_BITS - 1);

fn op_field(v: u32) -> u32
    ensures { result ≡ op_field v }
{
    v / OP_AT % CODES
}

fn cmp_field(v: u32) -> u32
    ensures { result ≡ cmp_field v }
{
    v / CMP_AT % CODES
}

// The word that an argument stands for: in the upper half of its values, itself less all of them.
#[tactic(auto, using(rules::proofs::WakeOp::low_word))]
fn extended(arg: u32) -> u32
    ensures { result ≡ modulo word_limit (signed arg_bits arg) }
{
    if arg < ARGS / 2 {
        arg
    } else {
        arg.wrapping_sub(ARGS)
    }
}

fn op_arg(v: u32) -> u32
    ensures { result ≡ modulo word_limit (op_arg v) }
{
    extended(v / OPARG_AT % ARGS)
}

fn cmp_arg(v: u32) -> u32
    ensures { result ≡ modulo word_limit (cmp_arg v) }
{
    extended(v % ARGS)
}

#[tactic(auto, unfolding(rules::specs::WakeOp::undefined_op))]
pub fn undefined_op(v: u32) -> bool
    ensures { result ≡ undefined_op v }
{
    (OP_XOR < op_field(v) % OPARG_SHIFT) | (CMP_GE < cmp_field(v))
}

#[tactic(auto, unfolding(rules::specs::WakeOp::operand))]
fn operand(v: u32) -> u32
    ensures { result ≡ operand v }
{
    let arg = op_arg(v);
    if OPARG_SHIFT <= op_field(v) {
        1 << (arg % WORD_BITS)
    } else {
        arg
    }
}

// The new word of a defined operation.
// Stays: the operation is a number, here as in compares, for new_word and compares of rules/specs/WakeOp.antt answer for each number that
// the field can hold, undefined ones as the last; an enum would be made of it and matched at once.
#[tactic(auto, unfolding(rules::specs::WakeOp::new_word, rules::specs::WakeOp::operate))]
pub fn new_word(v: u32, old: u32) -> u32
    ensures { result ≡ new_word v old }
{
    let x = operand(v);
    match op_field(v) % OPARG_SHIFT {
        0 => x,
        1 => old.wrapping_add(x),
        2 => old | x,
        3 => old & !x,
        _ => old ^ x,
    }
}

// With the sign bit turned, signed words are in the order of unsigned ones.
fn turned(word: u32) -> u32
    ensures { result ≡ turned word_bits word }
{
    word.wrapping_add(SIGN)
}

pub fn compares(v: u32, old: u32) -> bool
    ensures { result ≡ compares v old }
{
    let x = turned(cmp_arg(v));
    let y = turned(old);
    match cmp_field(v) {
        0 => y == x,
        1 => y != x,
        2 => y < x,
        3 => y <= x,
        4 => x < y,
        _ => x <= y,
    }
}
