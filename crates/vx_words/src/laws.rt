//! Laws of words. These functions do nothing; their contracts are the laws.

ghost use Rattle.vx_words.specs.Words.{WordsSpellOneCommand};

/// Words spell one command only.
pub fn words_spell_one_command()
    ensures { WordsSpellOneCommand }
{}
