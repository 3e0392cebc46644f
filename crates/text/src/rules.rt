// The replacement rules by name, for the assembler and for what the programs print.
ghost use Rattle.std.specs.Prelude.{◌≡◌};
ghost use Rattle.text.specs.Digits.{Put};
ghost use Rattle.text.specs.Words.{word_at};
ghost use Rattle.text.specs.Rules.{rule_name, rule_named};

// A name at its byte.
pub const NAMES: [&str; 3] = ["lru", "fifo", "tree"];

// The rule that the word at a place of a line names.
pub fn rule_at(line: &[u8], at: usize) -> Option<u8>
    ensures { result ≡ rule_named (word_at line.now at) }
{
    for (i, name) in NAMES.iter().enumerate() {
        if crate::word_is(line, at, name.as_bytes()) {
            return Some(i as u8);
        }
    }
    None
}

// The name of a rule's number; the number itself where it has none.
pub fn put_rule(n: u64, out: &mut [u8], at: usize) -> usize
    ensures { Put out.old at (rule_name n) result out.new }
{
    match NAMES.get(n as usize) {
        Some(name) => crate::put_text(name.as_bytes(), out, at),
        None => crate::put_decimal(n, out, at),
    }
}
