// Words and mark bytes that their owner lends to devices.
ghost use Rattle.std.specs.Prelude.{◌≡◌, ◌-◌, ◌/◌, length, take, drop};

#[derive(Drop)]
pub struct Cells<'a> {
    pub words: &'a mut [u32],
    pub marks: &'a mut [u8],
}

impl<'a> Cells<'a> {
    // Two parts, each with half of the words and half of the mark bytes. The first gets the smaller
    // half of an odd number.
    pub fn halves(self) -> (Cells<'a>, Cells<'a>)
        ensures upper_words { result.0.words.now ≡ take (length self.entry.words.now / 2) self.entry.words.now }
        ensures upper_marks { result.0.marks.now ≡ take (length self.entry.marks.now / 2) self.entry.marks.now }
        ensures lower_words { result.1.words.now ≡ drop (length self.entry.words.now / 2) self.entry.words.now }
        ensures lower_marks { result.1.marks.now ≡ drop (length self.entry.marks.now / 2) self.entry.marks.now }
        ensures words_held { (length result.0.words.now ≡ length self.entry.words.now / 2) × (length result.1.words.now ≡ length self.entry.words.now - length self.entry.words.now / 2) }
        ensures marks_held { (length result.0.marks.now ≡ length self.entry.marks.now / 2) × (length result.1.marks.now ≡ length self.entry.marks.now - length self.entry.marks.now / 2) }
    {
        let Cells { words, marks } = self;
        let middle = words.len() / 2;
        let (above, below) = words.split_at_mut(middle);
        let middle = marks.len() / 2;
        let (over, under) = marks.split_at_mut(middle);
        let upper = Cells {
            words: above,
            marks: over,
        };
        let lower = Cells {
            words: below,
            marks: under,
        };
        (upper, lower)
    }
}
