//! The file of a page: its name and its bytes.
ghost use Rattle.std.specs.Prelude.{◌≡◌, ◌≢◌, List, ℕ, None, IfSome};
ghost use Rattle.file_devices.specs.PageFile.{page_bytes};

use log_blocks::{HEAD_LEN, head};

/// How long a name is, in bytes.
pub(crate) const NAME_LEN: usize = 16;

/// The name of the file of a page: its number in hexadecimal digits.
pub(crate) fn name_of(id: u64) -> [u8; NAME_LEN] {
    let mut name = [b'0'; NAME_LEN];
    let _ = hex::encode_to_slice(id.to_be_bytes(), &mut name);
    name
}

/// The page of whose file this is the name, if it is one's.
pub(crate) fn id_of(name: &[u8]) -> Option<u64> {
    let mut bytes = [0; 8];
    hex::decode_to_slice(name, &mut bytes).ok()?;
    let id = u64::from_be_bytes(bytes);
    (name == name_of(id).as_slice()).then_some(id)
}

/// The image that the file of a page of this store has, if it is what was written there.
pub(crate) fn image_in(store: u64, id: u64, file: &[u8]) -> Option<&[u8]>
    ensures written { IfSome result (λ image. file.now ≡ page_bytes store id image.now) }
    ensures other { result ≡ None → (image : List ℕ) → file.now ≢ page_bytes store id image }
{
    if file.len() < HEAD_LEN {
        return None;
    }
    let (front, image) = file.split_at(HEAD_LEN);
    let (head, _) = head(store, id, image);
    if front == head.as_slice() {
        Some(image)
    } else {
        None
    }
}
