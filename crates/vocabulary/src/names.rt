//! Names by where they stand in a sheet.
ghost use Rattle.std.specs.Prelude.{◌≡◌, map, length};
ghost use Rattle.vocabulary.specs.Vocabulary.{place, names_of};
ghost use Rattle.vocabulary.specs.Parts.{name_at, attributes_in};
ghost use Rattle.vocabulary.specs.declared.parts.Span.{Span as SpanOf};

use crate::attributes::Attributes;
use crate::parts::{Attribute, Span};

/// The name at a span; what would stand past the end of the sheet is left out.
pub(crate) fn name_at<'a>(sheet: &'a [u8], span: Span) -> &'a [u8]
    ensures { result.now ≡ name_at sheet.now span }
{
    let from = sheet.len().min(usize::from(span.from));
    let rest = &sheet[from..];
    let size = rest.len().min(usize::from(span.len));
    &rest[..size]
}

/// What has a name in the sheet.
pub trait Named {
    ghost spanned: { Self → SpanOf };

    fn span(&self) -> Span
        ensures { result ≡ spanned self.now };
}

impl Named for Span {
    ghost spanned = { λ s. s };

    fn span(&self) -> Span {
        *self
    }
}

impl Named for Attribute {
    ghost spanned = { λ a. a.name };

    fn span(&self) -> Span {
        self.name
    }
}

/// Where a name stands among the names of `items`.
pub(crate) fn find<T: Named>(sheet: &[u8], items: &[T], name: &[u8]) -> Option<usize>
    ensures { result ≡ place name.now (map (λ x. name_at sheet.now (T.spanned x)) items.now) }
{
    items
        .iter()
        .position(|item| name == name_at(sheet, item.span()))
}

impl Attributes {
    /// Where the attribute of this name stands.
    pub(crate) fn find(&self, sheet: &[u8], name: &[u8]) -> Option<usize>
        ensures { result ≡ place name.now (names_of (attributes_in sheet.now self.now)) }
    {
        find(sheet, self.items.as_slice(), name)
    }
}
