//! Values as parameters of statements.

ghost use Rattle.std.specs.Prelude.{◌≡◌, string_bytes};
ghost use Rattle.sqlite.specs.Value.{owned};
ghost use Rattle.sqlite.specs.declared.types.Value.TheVariants.{Int, Text, Blob};

use sqlite::types::ValueRef;

pub fn number(n: &i64) -> ValueRef<'static>
    ensures { owned result ≡ Int n.now }
{
    ValueRef::Int(*n)
}

pub fn text(characters: &String) -> ValueRef<'_>
    ensures { owned result ≡ Text (string_bytes characters.now) }
{
    ValueRef::Text(characters.as_bytes())
}

pub fn blob(bytes: &Vec<u8>) -> ValueRef<'_>
    ensures { owned result ≡ Blob bytes.now.items }
{
    ValueRef::Blob(bytes.as_slice())
}
