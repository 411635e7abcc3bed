ghost use Rattle.std.specs.Prelude.{◌≡◌, ℕ, min, ◌+◌, ◌-◌, ◌^◌, ◌≤◌, [], IsTrue, slice_index_or};

use grid_outside::Ambient;

/// Times and words in memory: those listed, and then one last value for good. It counts its calls of each kind.
#[derive(Debug, Drop)]
pub struct MemAmbient {
    times: Vec<u64>,
    last_time: u64,
    times_given: u64,
    words: Vec<u64>,
    last_word: u64,
    words_given: u64,
}

impl MemAmbient {
    ghost use Rattle.grid_mem.specs.MemAmbient.{ambient_of, time_at, word_at, times_given_of, words_given_of};

    /// Gives these times and words, in this order, and then the last ones.
    pub fn new(times: Vec<u64>, last_time: u64, words: Vec<u64>, last_word: u64) -> MemAmbient
        ensures tells { IsTrue (ambient_of result).tells }
        ensures times { (ambient_of result).times ≡ [] }
        ensures words { (ambient_of result).words ≡ [] }
        ensures none_given { (times_given_of result ≡ 0) × (words_given_of result ≡ 0) }
        ensures listed_times { (k : ℕ) → time_at result k ≡ slice_index_or times.items k last_time }
        ensures listed_words { (k : ℕ) → word_at result k ≡ slice_index_or words.items k last_word }
    {
        MemAmbient {
            times,
            last_time,
            times_given: 0,
            words,
            last_word,
            words_given: 0,
        }
    }
}

// The value at this place, or the last one past the list.
fn value_at(listed: &[u64], last: u64, place: u64) -> u64
    ensures { result ≡ slice_index_or listed.now place last }
{
    if place < listed.len() as u64 {
        listed[place as usize]
    } else {
        last
    }
}

impl Ambient for MemAmbient {
    ghost use Rattle.grid_outside.specs.Ambient.{GivesTime, GivesWord};
    ghost use Rattle.grid_mem.specs.MemAmbient.{ambient_of, time_at, word_at, times_given_of, words_given_of};

    ghost ambient = { ambient_of };

    fn now(&mut self) -> u64
        ensures given { IsTrue (ambient_of self.new).tells →
            GivesTime (ambient_of self.old) result (ambient_of self.new) }
        ensures count { times_given_of self.new ≡ min (times_given_of self.old + 1) (2 ^ 64 - 1) }
        ensures other_count { words_given_of self.new ≡ words_given_of self.old }
        ensures time { result ≡ time_at self.old (times_given_of self.old) }
        ensures same_times { (k : ℕ) → time_at self.new k ≡ time_at self.old k }
        ensures same_words { (k : ℕ) → word_at self.new k ≡ word_at self.old k }
    {
        let time = value_at(&self.times, self.last_time, self.times_given);
        self.times_given = self.times_given.saturating_add(1);
        time
    }

    fn word(&mut self) -> u64
        ensures given { IsTrue (ambient_of self.new).tells →
            GivesWord (ambient_of self.old) result (ambient_of self.new) }
        ensures count { words_given_of self.new ≡ min (words_given_of self.old + 1) (2 ^ 64 - 1) }
        ensures other_count { times_given_of self.new ≡ times_given_of self.old }
        ensures word { result ≡ word_at self.old (words_given_of self.old) }
        ensures same_times { (k : ℕ) → time_at self.new k ≡ time_at self.old k }
        ensures same_words { (k : ℕ) → word_at self.new k ≡ word_at self.old k }
    {
        let word = value_at(&self.words, self.last_word, self.words_given);
        self.words_given = self.words_given.saturating_add(1);
        word
    }
}
