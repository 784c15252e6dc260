//! Folding of paths.
ghost use Rattle.std.specs.Prelude.{◌≡◌, ◌+◌, not, length, Err, Some, None, IfOk, OnOk, ◌++◌, map, string_bytes};
ghost use Rattle.std.specs.List.{slice_split, join_with_byte, suffix_len};
ghost use Rattle.eo_io.specs.declared.PathRefused.TheVariants.{Bad};
ghost use Rattle.eo_io.specs.Parts.{last_first};
ghost use Rattle.eo_io.specs.Paths.{fold_path, seen_from, folder, is_absolute, is_slash, parts_of, path_of_parts, root, with_part, up};

use crate::PathRefused;
use eo_base::Text;
use std::alloc::{AllocError, Global};

/// How many bytes a folded path has at most.
const PATH_LIMIT: usize = 4_096;

/// The folded path of the file that is named `name` in the file with the folded path `from`, or
/// among the words, where `from` is empty.
///
/// A name that does not begin with `/` is looked for in the folder of `from`. Empty parts and `.`
/// are dropped, and `..` drops the part before it. Where there is none, or it is `..` too, then
/// `..` stays, but at the root it is dropped.
///
/// `Bad`: the path is not UTF-8, no part of it stays, or it is longer than 4,096 bytes once it is
/// folded. `Memory`: there was no memory left.
pub fn fold_path(alloc: Global, from: &[u8], name: &[u8]) -> Result<Text, PathRefused>
    ensures folds { IfOk result (λ path. fold_path from.now name.now ≡ Some path) }
    ensures bad { result ≡ Err Bad → fold_path from.now name.now ≡ None }
{
    match fold(alloc, from, name) {
        Ok(Some(path)) => Ok(path),
        Ok(None) => Err(PathRefused::Bad),
        Err(e) => Err(PathRefused::Memory(e)),
    }
}

/// The same, where `None` is a bad path.
#[tactic(auto, using(crate::proofs::FoldingLemmas::folded_text, crate::proofs::FoldingLemmas::folded_no_text))]
fn fold(alloc: Global, from: &[u8], name: &[u8]) -> Result<Option<Text>, AllocError>
    ensures { IfOk result (λ path. path ≡ fold_path from.now name.now) }
{
    let path = seen_from(alloc, from, name)?;
    match str::from_utf8(&path) {
        Ok(path) => fold_utf8(alloc, path),
        Err(_) => Ok(None),
    }
}

/// The path joined to the folder of the file that names it.
fn seen_from(alloc: Global, from: &[u8], name: &[u8]) -> Result<Vec<u8>, AllocError>
    ensures { IfOk result (λ path. path.items ≡ seen_from from.now name.now) }
{
    if is_absolute(name) {
        return name.to_vec(alloc);
    }
    let mut path = folder(from).to_vec(alloc)?;
    path.extend_from_slice(name)?;
    Ok(path)
}

/// Whether a path begins at the root.
fn is_absolute(path: &[u8]) -> bool
    ensures { result ≡ is_absolute path.now }
{
    matches!(path, [b'/', ..])
}

/// The folder of a file, with the slash that ends it. It is empty where the path has no slash.
fn folder(path: &[u8]) -> &[u8]
    ensures { result.now ≡ folder path.now }
{
    &path[..folder_len(path)]
}

/// How many bytes of a path its folder has.
fn folder_len(path: &[u8]) -> usize
    ensures { result + suffix_len (λ byte. not (is_slash byte)) path.now ≡ length path.now }
{
    let mut end = path.len();
    while end > 0 && path[end - 1] != b'/' {
        end -= 1;
    }
    end
}

/// A path that is UTF-8, folded; `None` where no part stays, or it is too long.
fn fold_utf8(alloc: Global, path: &str) -> Result<Option<Text>, AllocError>
    ensures { IfOk result (λ folded. folded ≡ path_of_parts (is_absolute path.now) (parts_of path.now)) }
{
    let parts = parts_of(alloc, path)?;
    if parts.is_empty() {
        return Ok(None);
    }
    let joined = join_parts(alloc, &parts, is_absolute(path.as_bytes()))?;
    if joined.len() > PATH_LIMIT {
        return Ok(None);
    }
    Ok(Some(Text::new(alloc, &joined)?))
}

/// The parts with a slash between them, and one before them where the path begins at the root.
#[tactic(auto, using(crate::proofs::FoldingLemmas::parts_joined))]
fn join_parts(alloc: Global, parts: &[&str], is_absolute: bool) -> Result<String, AllocError>
    ensures { IfOk result (λ path. string_bytes path ≡ root is_absolute ++ join_with_byte 47 (map (λ part. part.now) parts.now)) }
{
    let mut path = String::from_str(alloc, root(is_absolute))?;
    path.push_str(&parts.join(alloc, "/")?)?;
    Ok(path)
}

/// What comes before the parts: a slash where the path begins at the root.
fn root(is_absolute: bool) -> &'static str
    ensures { result.now ≡ root is_absolute }
{
    if is_absolute { "/" } else { "" }
}

/// The parts of a path that stay.
fn parts_of(alloc: Global, path: &str) -> Result<Vec<&str>, AllocError>
    ensures { IfOk result (λ parts. map (λ part. part.now) parts.items ≡ parts_of path.now) }
{
    let pieces = pieces(alloc, path)?;
    let is_absolute = is_absolute(path.as_bytes());
    let mut parts = Vec::new(alloc);
    for piece in &pieces {
        take(&mut parts, piece, is_absolute)?;
    }
    Ok(parts)
}

/// The pieces between the slashes.
fn pieces(alloc: Global, path: &str) -> Result<Vec<&str>, AllocError>
    ensures { IfOk result (λ pieces. map (λ piece. piece.now) pieces.items ≡ slice_split is_slash path.now) }
{
    path.split('/').collect(alloc)
}

/// The parts that stay after one more.
#[tactic(auto, using(crate::proofs::FoldingLemmas::parts_pushed, crate::proofs::FoldingLemmas::with_name))]
fn take<'a>(parts: &mut Vec<&'a str>, part: &'a str, is_absolute: bool) -> Result<(), AllocError>
    ensures { OnOk result (last_first parts.new.items ≡ with_part is_absolute (last_first parts.old.items) part.now) }
{
    match part {
        "" | "." => {}
        ".." => go_up(parts, is_absolute)?,
        _ => parts.push(part)?,
    }
    Ok(())
}

/// The parts that stay after `..`.
#[tactic(auto, using(crate::proofs::FoldingLemmas::parts_pushed, crate::proofs::FoldingLemmas::up_from_name))]
fn go_up(parts: &mut Vec<&str>, is_absolute: bool) -> Result<(), AllocError>
    ensures { OnOk result (last_first parts.new.items ≡ up is_absolute (last_first parts.old.items)) }
{
    let Some(last) = parts.pop() else {
        if !is_absolute {
            parts.push("..")?;
        }
        return Ok(());
    };
    if last == ".." {
        parts.push(last)?;
        parts.push("..")?;
    }
    Ok(())
}
