//! What the program is asked to run.

const MOST: u32 = 100_000;

/// The words of a call. The path of the file is its second word.
pub enum Words {
    None,
    Rows { rounds: u32 },
    Append { calls: u32, rounds: u32 },
    Unknown,
}

fn number_of(text: &str) -> Option<u32> {
    let number = text.parse::<u32>().ok()?;
    if number == 0 || number > MOST {
        return None;
    }
    Some(number)
}

fn rows_of(rounds: &str) -> Words {
    match number_of(rounds) {
        Some(rounds) => Words::Rows { rounds },
        None => Words::Unknown,
    }
}

fn append_of(calls: &str, rounds: &str) -> Words {
    match (number_of(calls), number_of(rounds)) {
        (Some(calls), Some(rounds)) => Words::Append { calls, rounds },
        _ => Words::Unknown,
    }
}

/// Reads the arguments behind the program's name.
pub fn words_of(words: &[String]) -> Words {
    match words {
        [] => Words::None,
        [rounds] => rows_of(rounds),
        [name, _, calls, rounds] if name.as_str() == "append" => append_of(calls, rounds),
        _ => Words::Unknown,
    }
}
