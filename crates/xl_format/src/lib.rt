//! Formats of XDR messages: how each is read and spelled, which values have a spelling, and that reading and spelling
//! undo each other, put together of the formats of its parts. Contracts above name them. The macros write the bodies of
//! the functions that read and write a record, part by part.
#![tactic(auto)]

mod nothing;

pub use nothing::put_nothing;

/// Reads the fields of a struct one after the other, each by a function or a method of the reader. The reader moves on
/// once all are read.
#[macro_export]
macro_rules! read_record {
    ($xdr:ident; $name:ident { $($field:ident: $read:path),* }) => {{
        let mut at = *$xdr;
        $(let $field = $read(&mut at)?;)*
        *$xdr = at;
        Ok($name { $($field),* })
    }};
}

/// Writes values one behind the other, each by a function or a method of the writer.
#[macro_export]
macro_rules! put_record {
    ($out:ident; $($put:path: $value:expr),*) => {{
        $($put($out, $value)?;)*
        Ok(())
    }};
}
