//! The digests of the files of the sample table of cities.

/// The manifest of their store, as `sha256sum` prints it of files that were made by hand.
pub const SUMS: &str = "\
75d906ee1ce6000725c592b7cdac078a1d22b26fbb467406dbbe17c465c4c11d  catalog.toml\n\
fcb8b588611b70fec7bc3e2b82d96f4ca1c8df4047548b167f688ae0ac8ace0b  p0.s0.seg\n\
5387a58ee83aba7666ff1a7ab7761d794c115e93f5035926c01b0b2c089bdeaa  p0.s0.del\n\
c6468c540861266ed2c715ddc229eb9a24b4e4b52c0fe23b1b3daab22894b98c  p0.s0.q1.jix\n\
ea3090999594ff495c3d21016a4350be9e8b7196e6e8465e5363f6e9a4f396b4  p1.s0.seg\n\
4b748002834b2865cc9b8403d74be4589399f4c610a49ae92516feec88ffca9a  p1.s0.del\n\
70303381914e883cb7b0ec43e3eb54ec49c106fbe14a49db8246ea56baf0c206  p1.s0.q0.jix\n\
ac0186fb9f9aa7e4acbc3423373b4f893c00c784d1d8610562921580e3765c73  p1.s1.seg\n\
9011ee3e92a079bb81b0c28ee1b8ce4c2ab20bcc894ab40e3bedcab50280458d  p1.s1.del\n\
65efa3fd824bed28795c32538b4ad9de1262b4f1a1a0ac2caf3020bb93a0768a  p1.s1.q0.jix\n\
";
