//! The lines of a text, and the words of a line.

ghost use Rattle.std.specs.Prelude.{◌≡◌, ◌<◌, length, option_map};
ghost use Rattle.std.specs.List.{before_first, after_first};
ghost use Rattle.replay_scripts.specs.Lines.{is_line_feed};
ghost use Rattle.replay_scripts.specs.Words.{first_word};

/// The first line of a text that isn't empty, and what stands behind its line feed.
pub fn first_line(text: &str) -> (&str, &str)
    ensures line { result.0.now ≡ before_first is_line_feed text.now }
    ensures rest { result.1.now ≡ after_first is_line_feed text.now }
{
    text.split_once('\n').unwrap_or((text, ""))
}

/// The first word of a line, and what stands behind the space that ends it.
pub fn first_word(line: &str) -> Option<(&str, &str)>
    ensures { option_map (λ cut. (cut.0.now, cut.1.now)) result ≡ first_word line.now }
{
    line.split_once(' ')
}
