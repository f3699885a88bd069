// Words zeroed, before trees are added into them.
ghost use Rattle.std.specs.Prelude.{◌≡◌, length, replicate};

// Zeroes words: `fill`, with the promise that both ends' laws of trees begin with, and an edit (`words_not_zeroed`).
pub fn zero_words(words: &mut [u64])
    ensures { words.new ≡ replicate (length words.old) 0 }
{
    words.fill(0);
}
