ghost use Rattle.std.specs.Prelude.{◌≡◌, map, IfOk, vec_items};
ghost use Rattle.std.specs.Option.{option_map};
ghost use Rattle.command.specs.Requests.{Reads, request_of};

use crate::failures::Failure;
use hexadecimal::decode;
use std::alloc::{AllocError, Global};
use std::convert::AsStr;

// The request that a word stands for: its bytes in hexadecimal, or `-` for none.
pub fn read_request(heap: Global, word: &str) -> Result<Option<Vec<u8>>, AllocError>
    ensures { IfOk result (λ o. option_map vec_items o ≡ request_of word.now) }
{
    if word == "-" {
        return Ok(Some(Vec::new(heap)));
    }
    decode(heap, word.as_bytes())
}

// The requests that words stand for, in order; a word that is none is told by its number, counted from 1.
pub fn read_requests<S: AsStr>(heap: Global, words: &[S]) -> Result<Vec<Vec<u8>>, Failure>
    ensures { Reads (map S.text words.now) result }
{
    let mut requests = Vec::new(heap);
    for (i, word) in words.iter().enumerate() {
        let request = read_request(heap, word.as_str())?.ok_or(Failure::NotHex(i + 1))?;
        requests.push(request)?;
    }
    Ok(requests)
}
