//! What the definitions of words alone say: what is written is read back.
ghost use Rattle.schedule_words.specs.Laws.{WordsComeBack, TextsComeBack, PlacesComeBack, NumbersComeBack};

/// The word that `Page::push_word` writes for octets is one word of a line, and is read back as them.
pub fn words_come_back()
    ensures { WordsComeBack }
{}

/// Where they are a text, the word is read back as the text.
pub fn texts_come_back()
    ensures { TextsComeBack }
{}

/// The word that `Page::push_place` writes is read back as the place, whose names are texts.
pub fn places_come_back()
    ensures { PlacesComeBack }
{}

/// The word that `Page::push_number` writes is read back as the number, wherever it is in range.
pub fn numbers_come_back()
    ensures { NumbersComeBack }
{}
