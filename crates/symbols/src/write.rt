// The printed text of symbols.
ghost use Rattle.std.specs.Prelude.{◌≡◌, ◌<◌, ◌++◌, [], ◌∷◌, length, codes, OnOk, OnErr};
ghost use Rattle.std.specs.Fmt.{signed_decimal};
ghost use Rattle.symbols.specs.Table.{symbol_at};
ghost use Rattle.symbols.specs.Text.{symbol_text, byte_text, quoted, closing};
ghost use Rattle.symbols.specs.inner.Layer.{AreBelow, symbols_of, separator};
ghost use Rattle.symbols.specs.inner.Layers.{AreLayers, layers_of};

use crate::layers::Layers;
use crate::listed::Listed;
use crate::memory::Memory;
use crate::symbol_id::SymbolId;
use crate::symbol_view::SymbolView;
use crate::table::SymbolTable;
use std::alloc::Global;

impl SymbolTable {
    /// Appends the printed text of a symbol, or leaves the list as it was.
    pub fn write_symbol(&self, id: SymbolId, out: &mut Listed<u8>) -> Result<(), Memory>
        requires { id < length self.now }
        ensures ok { OnOk result (out.new ≡ out.old ++ symbol_text (symbol_at self.now id)) }
        ensures err { OnErr result (out.new ≡ out.old) }
    {
        let mut text = Listed::new(self.alloc);
        write_place(self.alloc, &self.layers, id.place(), &mut text)?;
        out.append(text.items())
    }
}

// Appends the printed text of the symbol at a place; after a refusal a part of it may stand there.
fn write_place(
    alloc: Global,
    layers: &Layers,
    place: usize,
    out: &mut Listed<u8>,
) -> Result<(), Memory>
    requires layers { AreLayers layers.now }
    requires before { AreBelow 0 (layers_of layers.now) }
    requires place { place < length (layers_of layers.now) }
    ensures { OnOk result (out.new ≡ out.old ++ symbol_text (symbol_at (symbols_of (layers_of layers.now)) place)) }
{
    match layers.view(place) {
        SymbolView::Number(n) => write_number(alloc, &n, out),
        SymbolView::Identifier(name) => out.append(name.as_bytes()),
        SymbolView::Text(text) => write_quoted(text.as_bytes(), out),
        SymbolView::Function(name, args) => {
            out.append(name.as_bytes())?;
            out.append(b"(")?;
            for (index, arg) in args.iter().enumerate() {
                out.append(separator_of(index))?;
                write_place(alloc, layers, arg.place(), out)?;
            }
            out.append(closing_of(name, args.len()))
        }
    }
}

// Appends a number in decimal.
fn write_number(alloc: Global, n: &i32, out: &mut Listed<u8>) -> Result<(), Memory>
    ensures { OnOk result (out.new ≡ out.old ++ signed_decimal n.now) }
{
    let text = n.to_string(alloc)?;
    out.append(text.as_bytes())
}

// Appends a text in quotes.
fn write_quoted(text: &[u8], out: &mut Listed<u8>) -> Result<(), Memory>
    ensures { OnOk result (out.new ≡ out.old ++ (codes "\"" ++ quoted text.now ++ codes "\"")) }
{
    out.append(b"\"")?;
    for byte in text {
        write_byte(*byte, out)?;
    }
    out.append(b"\"")
}

// Appends a byte as it stands between quotes.
fn write_byte(byte: u8, out: &mut Listed<u8>) -> Result<(), Memory>
    ensures { OnOk result (out.new ≡ out.old ++ byte_text byte) }
{
    match byte {
        b'\\' => out.append(b"\\\\"),
        b'"' => out.append(b"\\\""),
        b'\n' => out.append(b"\\n"),
        _ => out.push(byte),
    }
}

// What stands before an argument.
fn separator_of(index: usize) -> &'static [u8]
    ensures { result.now ≡ separator index }
{
    if index == 0 { b"" } else { b"," }
}

// What ends the arguments of a name.
fn closing_of(name: &str, places: usize) -> &'static [u8]
    ensures { result.now ≡ closing name.now places }
{
    if name.is_empty() && places == 1 {
        b",)"
    } else {
        b")"
    }
}
