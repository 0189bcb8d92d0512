// The laws of quoted scalars.
ghost use Rattle.hk_laws.specs.Scalars.{IsDoubleQuoted, IsSingleQuoted, ReadsBack, ReadsQuoted};
ghost use Rattle.hk_meta.specs.Scalar.{quoted, scalar};

/// A quoted scalar is read exactly where it spells its value, and what is printed with its escapes is read back. Does nothing.
pub fn scalar_laws()
    ensures double { ReadsQuoted (quoted 34) IsDoubleQuoted }
    ensures single { ReadsQuoted (quoted 39) IsSingleQuoted }
    ensures back { ReadsBack scalar }
{}
