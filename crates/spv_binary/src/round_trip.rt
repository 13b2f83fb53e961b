//! What holds of writing and reading together, for all modules and all bytes. Nothing here runs.

ghost use Rattle.std.specs.Prelude.{false, true};
ghost use Rattle.spv_module.specs.Words.{big_endian, little_endian};
ghost use Rattle.spv_binary.specs.RoundTrip.{AnsweredOnce, ReadIsWritten, SpelledByItsWords, SpelledIsWhole, SpelledOnceInEachOrder, SpelledOrBroken, SpellsOne, WrittenIsAnswered, WrittenIsRead};

/// What [`write`](crate::write) gives is read by [`read`](crate::read) as the module that was
/// written, unless memory runs out; so is the same with the bytes of each word reversed.
pub fn written_is_read()
    ensures little { WrittenIsRead little_endian }
    ensures big { WrittenIsRead big_endian }
    ensures little_answered { WrittenIsAnswered little_endian }
    ensures big_answered { WrittenIsAnswered big_endian }
{}

/// What is read is written as the same words: where the lowest byte of each stood first, as the same
/// bytes.
pub fn read_is_written()
    ensures little { ReadIsWritten false little_endian }
    ensures big { ReadIsWritten true big_endian }
{}

/// Bytes spell one module at most, and a module is spelled by one list of words alone: in each order
/// of bytes by one list of bytes. They break no rule of [`rule`](crate::rule).
pub fn spelled_once()
    ensures one { SpellsOne }
    ensures words { SpelledByItsWords }
    ensures each_order { SpelledOnceInEachOrder }
    ensures whole { SpelledIsWhole }
{}

/// Bytes spell a module or break a rule, and first in one place: so [`read`](crate::read) has one
/// answer to give, unless memory runs out.
pub fn spelled_or_broken()
    ensures some { SpelledOrBroken }
    ensures one { AnsweredOnce }
{}
