ghost use Rattle.grail_code.specs.Spelling.{Decoded, Means};
ghost use Rattle.grail_code.specs.Decoding.{IsMigrated, Migrates};

use crate::decoder::decode;
use crate::encoder::encode;
use crate::fault::DecodeFault;
use std::alloc::Global;
use stops::Stop;

/// The spelling in the second format, `GRL2`, of the code that the bytes spell in either.
///
/// It is the same code, and what code means is a function of the code: so its runs are the same before and after. It is
/// refused exactly where [`decode`] refuses, with the same fault. [`Stop::Memory`] is no answer about the bytes.
#[tactic(auto, using(crate::proofs::SpellingMeans::spelled_within))]
pub fn migrate(alloc: Global, bytes: &[u8]) -> Result<Vec<u8>, Stop<DecodeFault>>
    // What is answered is so: the bytes spell a code, and the answer is its spelling in the second format.
    ensures found { IsMigrated bytes.now result }
    // What the bytes are decides the answer, unless memory runs out.
    ensures exact { (o : Decoded) → Means bytes.now o → Migrates result o }
{
    let code = decode(alloc, bytes)?;
    Ok(encode(alloc, &code)?)
}
