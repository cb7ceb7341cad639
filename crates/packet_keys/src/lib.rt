// Signature and key lengths by signing type: document 02's fixed list, one constant table each. A type that is not listed has no length.
#![tactic(auto)]

ghost use Rattle.std.specs.Prelude.{◌≡◌, ◌≤◌, IfSome, slice_index_or};
ghost use Rattle.terms.specs.Ladder.{◌when◌else◌};
ghost use Rattle.packet_keys.specs.Kinds.{signature_length, key_length, is_listed};

// Types 0, 1, 2, 3, 7 and 11 are listed. A table of each length by type is the project's form for the list.
const SIGNATURE_LENGTHS: [Option<usize>; 12] = [
    Some(40),
    Some(64),
    Some(96),
    Some(132),
    None,
    None,
    None,
    Some(64),
    None,
    None,
    None,
    Some(64),
];

const KEY_LENGTHS: [Option<usize>; 12] = [
    Some(128),
    Some(64),
    Some(96),
    Some(132),
    None,
    None,
    None,
    Some(32),
    None,
    None,
    None,
    Some(32),
];

// What the table has for this type.
fn length_in(table: &[Option<usize>; 12], kind: u16) -> Option<usize>
    ensures { result ≡ slice_index_or table.now kind None }
{
    *table.get(usize::from(kind))?
}

// How long a signature by a key of this type is, where the type is listed.
#[tactic(auto, using(crate::proofs::Listed::signature_at, crate::proofs::Listed::bounded))]
pub fn signature_length(kind: u16) -> Option<usize>
    ensures length { result ≡ (Some (signature_length kind) when is_listed kind else None) }
    ensures most { IfSome result (λ n. n ≤ 132) }
{
    length_in(&SIGNATURE_LENGTHS, kind)
}

// How long a public key of this type is, where the type is listed.
#[tactic(auto, using(crate::proofs::Listed::key_at, crate::proofs::Listed::bounded))]
pub fn key_length(kind: u16) -> Option<usize>
    ensures length { result ≡ (Some (key_length kind) when is_listed kind else None) }
    ensures most { IfSome result (λ n. n ≤ 132) }
{
    length_in(&KEY_LENGTHS, kind)
}
