//! Laws of the flags, and of what they say of a sum or a difference.

ghost use Rattle.std.specs.Prelude.{◌≡◌, ◌+◌, ◌*◌, ◌/◌, ◌%◌, ◌==◌, ◌<◌, ◌^◌, ℕ, Bool, not, nat_le, if◌then◌else◌};
ghost use Rattle.spc700_alu.specs.Flags.{V, C, flag, with_flag, carry_in, SameFlags};
ghost use Rattle.spc700_alu.specs.Ranges.{borrow_in, sum_fits, difference_fits, IsDecimalSum};
ghost use Rattle.spc700_alu.specs.Bytes.{adc_of, sbc_of, cmp_of, logic_of, shift_of, bump_of};
ghost use Rattle.spc700_alu.specs.WordArithmetic.{addw_of, subw_of, cmpw_of, mul_of, div_of};
ghost use Rattle.spc700_alu.specs.Decimal.{daa_of, das_of};
ghost use Rattle.spc700_alu.specs.Bits.{bitop_of};
ghost use Rattle.spc700_alu.specs.declared.bytes.LogicKind.{LogicKind};
ghost use Rattle.spc700_alu.specs.declared.bytes.ShiftKind.{ShiftKind};
ghost use Rattle.spc700_alu.specs.declared.bits.BitKind.{BitKind};

/// To set or clear a flag changes that flag alone.
pub fn flags_change_alone()
    ensures { (psw i j : ℕ) (on : Bool) → psw < 256 → i < 8 → j < 8
        → flag (2 ^ j) (with_flag (2 ^ i) on psw) ≡ (if i == j then on else flag (2 ^ j) psw) }
{}

/// Each operation leaves the flags that it doesn't name: the mask is that of the flags that stay.
pub fn other_flags_stay()
    ensures adc { (a b psw : ℕ) → SameFlags 0x34 psw (adc_of a b psw).psw }
    ensures sbc { (a b psw : ℕ) → SameFlags 0x34 psw (sbc_of a b psw).psw }
    ensures cmp { (a b psw : ℕ) → SameFlags 0x7c psw (cmp_of a b psw) }
    ensures logic { (kind : LogicKind) (a b psw : ℕ) → SameFlags 0x7d psw (logic_of kind a b psw).psw }
    ensures shift { (kind : ShiftKind) (v psw : ℕ) → SameFlags 0x7c psw (shift_of kind v psw).psw }
    ensures bump { (v : ℕ) (up : Bool) (psw : ℕ) → SameFlags 0x7d psw (bump_of v up psw).psw }
    ensures addw { (ya w psw : ℕ) → SameFlags 0x34 psw (addw_of ya w psw).psw }
    ensures subw { (ya w psw : ℕ) → SameFlags 0x34 psw (subw_of ya w psw).psw }
    ensures cmpw { (ya w psw : ℕ) → SameFlags 0x7c psw (cmpw_of ya w psw) }
    ensures mul { (y a psw : ℕ) → SameFlags 0x7d psw (mul_of y a psw).psw }
    ensures div { (ya x psw : ℕ) → SameFlags 0x35 psw (div_of ya x psw).psw }
    ensures daa { (a psw : ℕ) → SameFlags 0x7c psw (daa_of a psw).psw }
    ensures das { (a psw : ℕ) → SameFlags 0x7c psw (das_of a psw).psw }
    ensures bitop { (kind : BitKind) (byte bit psw : ℕ) → SameFlags 0xfe psw (bitop_of kind byte bit psw).psw }
{}

/// V is set exactly where the signed sum or difference leaves its range, of bytes and of words.
pub fn overflow_is_out_of_range()
    ensures adc { (a b psw : ℕ) → a < 0x100 → b < 0x100 → psw < 256 → flag V (adc_of a b psw).psw ≡ not (sum_fits 0x80 a b (carry_in psw)) }
    ensures sbc { (a b psw : ℕ) → a < 0x100 → b < 0x100 → psw < 256 → flag V (sbc_of a b psw).psw ≡ not (difference_fits 0x80 a b (borrow_in psw)) }
    ensures addw { (a b psw : ℕ) → a < 0x10000 → b < 0x10000 → psw < 256 → flag V (addw_of a b psw).psw ≡ not (sum_fits 0x8000 a b 0) }
    ensures subw { (a b psw : ℕ) → a < 0x10000 → b < 0x10000 → psw < 256 → flag V (subw_of a b psw).psw ≡ not (difference_fits 0x8000 a b 0) }
{}

/// C is set exactly where the unsigned sum leaves its range, and where the unsigned difference doesn't.
pub fn carry_is_out_of_range()
    ensures adc { (a b psw : ℕ) → psw < 256 → flag C (adc_of a b psw).psw ≡ nat_le 0x100 (a + b + carry_in psw) }
    ensures sbc { (a b psw : ℕ) → b < 0x100 → psw < 256 → flag C (sbc_of a b psw).psw ≡ nat_le (b + borrow_in psw) a }
    ensures cmp { (a b psw : ℕ) → psw < 256 → flag C (cmp_of a b psw) ≡ nat_le b a }
    ensures addw { (a b psw : ℕ) → psw < 256 → flag C (addw_of a b psw).psw ≡ nat_le 0x10000 (a + b) }
    ensures subw { (a b psw : ℕ) → b < 0x10000 → psw < 256 → flag C (subw_of a b psw).psw ≡ nat_le b a }
    ensures cmpw { (ya w psw : ℕ) → psw < 256 → flag C (cmpw_of ya w psw) ≡ nat_le w ya }
{}

/// DAA after ADC of two numbers of two decimal digits gives their decimal sum, with C where it is 100 or more.
pub fn decimal_sums_are_decimal()
    ensures { (x y psw : ℕ) → x < 100 → y < 100 → psw < 256 → IsDecimalSum x y psw }
{}

/// DIV gives quotient and remainder wherever the quotient is a byte.
pub fn division_is_exact()
    ensures { (ya x psw : ℕ) → ya < 0x10000 → ya < 0x100 * x → (div_of ya x psw).value ≡ 0x100 * (ya % x) + ya / x }
{}
