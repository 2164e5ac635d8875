//! What the bytes of a setup file tell, for whoever calls its function.

ghost use Rattle.std.specs.Prelude.{◌≡◌, ◌↔◌, ℕ, List, None, Err};
ghost use Rattle.plum_table.specs.Setup.{document_of, setup_of};
ghost use Rattle.plum_table.specs.declared.fault.SetupFault.TheVariants.{NotToml};

/// A setup is stated by a document: bytes are said to be no TOML exactly where they are none.
pub fn setups_come_from_documents()
    ensures not_toml { (bytes : List ℕ)
        → (setup_of bytes ≡ Err NotToml) ↔ (document_of bytes ≡ None) }
{}
