// What the cutting of a text into words comes to, said without the way in which it is done.
ghost use Rattle.words.specs.Laws.{WordsAreParts};

// Holds of every text: its words are its parts between separators, each once and in order.
pub fn words_are_parts()
    ensures { WordsAreParts }
{}
