// The constant table.
ghost use Rattle.bch.specs.Words.{Table};

use crate::division::Words;

// For each octet, the remainder of its eight bits as a message.
const TABLE: [Words; 256] = [
    Words {
        high: 0x0000000000000000,
        middle: 0x0000000000000000,
        low: 0x0000000000000000,
    },
    Words {
        high: 0x3b92f15b3078b68d,
        middle: 0x77aa6c59656e8a4c,
        low: 0xfba9211137981c4b,
    },
    Words {
        high: 0x7725e2b660f16d1a,
        middle: 0xef54d8b2cadd1499,
        low: 0xf75242226f303896,
    },
    Words {
        high: 0x4cb713ed5089db97,
        middle: 0x98feb4ebafb39ed5,
        low: 0x0cfb633358a824dd,
    },
    Words {
        high: 0xee4bc56cc1e2da35,
        middle: 0xdea9b16595ba2933,
        low: 0xeea48444de60712c,
    },
    Words {
        high: 0xd5d93437f19a6cb8,
        middle: 0xa903dd3cf0d4a37f,
        low: 0x150da555e9f86d67,
    },
    Words {
        high: 0x996e27daa113b72f,
        middle: 0x31fd69d75f673daa,
        low: 0x19f6c666b15049ba,
    },
    Words {
        high: 0xa2fcd681916b01a2,
        middle: 0x4657058e3a09b7e6,
        low: 0xe25fe77786c855f1,
    },
    Words {
        high: 0xe7057b82b3bd02e6,
        middle: 0xcaf90e924e1ad82b,
        low: 0x26e029988b58fe13,
    },
    Words {
        high: 0xdc978ad983c5b46b,
        middle: 0xbd5362cb2b745267,
        low: 0xdd490889bcc0e258,
    },
    Words {
        high: 0x90209934d34c6ffc,
        middle: 0x25add62084c7ccb2,
        low: 0xd1b26bbae468c685,
    },
    Words {
        high: 0xabb2686fe334d971,
        middle: 0x5207ba79e1a946fe,
        low: 0x2a1b4aabd3f0dace,
    },
    Words {
        high: 0x094ebeee725fd8d3,
        middle: 0x1450bff7dba0f118,
        low: 0xc844addc55388f3f,
    },
    Words {
        high: 0x32dc4fb542276e5e,
        middle: 0x63fad3aebece7b54,
        low: 0x33ed8ccd62a09374,
    },
    Words {
        high: 0x7e6b5c5812aeb5c9,
        middle: 0xfb046745117de581,
        low: 0x3f16effe3a08b7a9,
    },
    Words {
        high: 0x45f9ad0322d60344,
        middle: 0x8cae0b1c74136fcd,
        low: 0xc4bfceef0d90abe2,
    },
    Words {
        high: 0xf598065e5702b340,
        middle: 0xe258717df95b3a1a,
        low: 0xb66972202129e06d,
    },
    Words {
        high: 0xce0af705677a05cd,
        middle: 0x95f21d249c35b056,
        low: 0x4dc0533116b1fc26,
    },
    Words {
        high: 0x82bde4e837f3de5a,
        middle: 0x0d0ca9cf33862e83,
        low: 0x413b30024e19d8fb,
    },
    Words {
        high: 0xb92f15b3078b68d7,
        middle: 0x7aa6c59656e8a4cf,
        low: 0xba9211137981c4b0,
    },
    Words {
        high: 0x1bd3c33296e06975,
        middle: 0x3cf1c0186ce11329,
        low: 0x58cdf664ff499141,
    },
    Words {
        high: 0x20413269a698dff8,
        middle: 0x4b5bac41098f9965,
        low: 0xa364d775c8d18d0a,
    },
    Words {
        high: 0x6cf62184f611046f,
        middle: 0xd3a518aaa63c07b0,
        low: 0xaf9fb4469079a9d7,
    },
    Words {
        high: 0x5764d0dfc669b2e2,
        middle: 0xa40f74f3c3528dfc,
        low: 0x54369557a7e1b59c,
    },
    Words {
        high: 0x129d7ddce4bfb1a6,
        middle: 0x28a17fefb741e231,
        low: 0x90895bb8aa711e7e,
    },
    Words {
        high: 0x290f8c87d4c7072b,
        middle: 0x5f0b13b6d22f687d,
        low: 0x6b207aa99de90235,
    },
    Words {
        high: 0x65b89f6a844edcbc,
        middle: 0xc7f5a75d7d9cf6a8,
        low: 0x67db199ac54126e8,
    },
    Words {
        high: 0x5e2a6e31b4366a31,
        middle: 0xb05fcb0418f27ce4,
        low: 0x9c72388bf2d93aa3,
    },
    Words {
        high: 0xfcd6b8b0255d6b93,
        middle: 0xf608ce8a22fbcb02,
        low: 0x7e2ddffc74116f52,
    },
    Words {
        high: 0xc74449eb1525dd1e,
        middle: 0x81a2a2d34795414e,
        low: 0x8584feed43897319,
    },
    Words {
        high: 0x8bf35a0645ac0689,
        middle: 0x195c1638e826df9b,
        low: 0x897f9dde1b2157c4,
    },
    Words {
        high: 0xb061ab5d75d4b004,
        middle: 0x6ef67a618d4855d7,
        low: 0x72d6bccf2cb94b8f,
    },
    Words {
        high: 0xd0a2fde79e7dd00c,
        middle: 0xb31a8ea297d8fe79,
        low: 0x977bc55175cbdc91,
    },
    Words {
        high: 0xeb300cbcae056681,
        middle: 0xc4b0e2fbf2b67435,
        low: 0x6cd2e4404253c0da,
    },
    Words {
        high: 0xa7871f51fe8cbd16,
        middle: 0x5c4e56105d05eae0,
        low: 0x602987731afbe407,
    },
    Words {
        high: 0x9c15ee0acef40b9b,
        middle: 0x2be43a49386b60ac,
        low: 0x9b80a6622d63f84c,
    },
    Words {
        high: 0x3ee9388b5f9f0a39,
        middle: 0x6db33fc70262d74a,
        low: 0x79df4115ababadbd,
    },
    Words {
        high: 0x057bc9d06fe7bcb4,
        middle: 0x1a19539e670c5d06,
        low: 0x827660049c33b1f6,
    },
    Words {
        high: 0x49ccda3d3f6e6723,
        middle: 0x82e7e775c8bfc3d3,
        low: 0x8e8d0337c49b952b,
    },
    Words {
        high: 0x725e2b660f16d1ae,
        middle: 0xf54d8b2cadd1499f,
        low: 0x75242226f3038960,
    },
    Words {
        high: 0x37a786652dc0d2ea,
        middle: 0x79e38030d9c22652,
        low: 0xb19becc9fe932282,
    },
    Words {
        high: 0x0c35773e1db86467,
        middle: 0x0e49ec69bcacac1e,
        low: 0x4a32cdd8c90b3ec9,
    },
    Words {
        high: 0x408264d34d31bff0,
        middle: 0x96b75882131f32cb,
        low: 0x46c9aeeb91a31a14,
    },
    Words {
        high: 0x7b1095887d49097d,
        middle: 0xe11d34db7671b887,
        low: 0xbd608ffaa63b065f,
    },
    Words {
        high: 0xd9ec4309ec2208df,
        middle: 0xa74a31554c780f61,
        low: 0x5f3f688d20f353ae,
    },
    Words {
        high: 0xe27eb252dc5abe52,
        middle: 0xd0e05d0c2916852d,
        low: 0xa496499c176b4fe5,
    },
    Words {
        high: 0xaec9a1bf8cd365c5,
        middle: 0x481ee9e786a51bf8,
        low: 0xa86d2aaf4fc36b38,
    },
    Words {
        high: 0x955b50e4bcabd348,
        middle: 0x3fb485bee3cb91b4,
        low: 0x53c40bbe785b7773,
    },
    Words {
        high: 0x253afbb9c97f634c,
        middle: 0x5142ffdf6e83c463,
        low: 0x2112b77154e23cfc,
    },
    Words {
        high: 0x1ea80ae2f907d5c1,
        middle: 0x26e893860bed4e2f,
        low: 0xdabb9660637a20b7,
    },
    Words {
        high: 0x521f190fa98e0e56,
        middle: 0xbe16276da45ed0fa,
        low: 0xd640f5533bd2046a,
    },
    Words {
        high: 0x698de85499f6b8db,
        middle: 0xc9bc4b34c1305ab6,
        low: 0x2de9d4420c4a1821,
    },
    Words {
        high: 0xcb713ed5089db979,
        middle: 0x8feb4ebafb39ed50,
        low: 0xcfb633358a824dd0,
    },
    Words {
        high: 0xf0e3cf8e38e50ff4,
        middle: 0xf84122e39e57671c,
        low: 0x341f1224bd1a519b,
    },
    Words {
        high: 0xbc54dc63686cd463,
        middle: 0x60bf960831e4f9c9,
        low: 0x38e47117e5b27546,
    },
    Words {
        high: 0x87c62d38581462ee,
        middle: 0x1715fa51548a7385,
        low: 0xc34d5006d22a690d,
    },
    Words {
        high: 0xc23f803b7ac261aa,
        middle: 0x9bbbf14d20991c48,
        low: 0x07f29ee9dfbac2ef,
    },
    Words {
        high: 0xf9ad71604abad727,
        middle: 0xec119d1445f79604,
        low: 0xfc5bbff8e822dea4,
    },
    Words {
        high: 0xb51a628d1a330cb0,
        middle: 0x74ef29ffea4408d1,
        low: 0xf0a0dccbb08afa79,
    },
    Words {
        high: 0x8e8893d62a4bba3d,
        middle: 0x034545a68f2a829d,
        low: 0x0b09fdda8712e632,
    },
    Words {
        high: 0x2c744557bb20bb9f,
        middle: 0x45124028b523357b,
        low: 0xe9561aad01dab3c3,
    },
    Words {
        high: 0x17e6b40c8b580d12,
        middle: 0x32b82c71d04dbf37,
        low: 0x12ff3bbc3642af88,
    },
    Words {
        high: 0x5b51a7e1dbd1d685,
        middle: 0xaa46989a7ffe21e2,
        low: 0x1e04588f6eea8b55,
    },
    Words {
        high: 0x60c356baeba96008,
        middle: 0xddecf4c31a90abae,
        low: 0xe5ad799e5972971e,
    },
    Words {
        high: 0x9ad70a940c831694,
        middle: 0x119f711c4adf76bf,
        low: 0xd55eabb3dc0fa569,
    },
    Words {
        high: 0xa145fbcf3cfba019,
        middle: 0x66351d452fb1fcf3,
        low: 0x2ef78aa2eb97b922,
    },
    Words {
        high: 0xedf2e8226c727b8e,
        middle: 0xfecba9ae80026226,
        low: 0x220ce991b33f9dff,
    },
    Words {
        high: 0xd66019795c0acd03,
        middle: 0x8961c5f7e56ce86a,
        low: 0xd9a5c88084a781b4,
    },
    Words {
        high: 0x749ccff8cd61cca1,
        middle: 0xcf36c079df655f8c,
        low: 0x3bfa2ff7026fd445,
    },
    Words {
        high: 0x4f0e3ea3fd197a2c,
        middle: 0xb89cac20ba0bd5c0,
        low: 0xc0530ee635f7c80e,
    },
    Words {
        high: 0x03b92d4ead90a1bb,
        middle: 0x206218cb15b84b15,
        low: 0xcca86dd56d5fecd3,
    },
    Words {
        high: 0x382bdc159de81736,
        middle: 0x57c8749270d6c159,
        low: 0x37014cc45ac7f098,
    },
    Words {
        high: 0x7dd27116bf3e1472,
        middle: 0xdb667f8e04c5ae94,
        low: 0xf3be822b57575b7a,
    },
    Words {
        high: 0x4640804d8f46a2ff,
        middle: 0xaccc13d761ab24d8,
        low: 0x0817a33a60cf4731,
    },
    Words {
        high: 0x0af793a0dfcf7968,
        middle: 0x3432a73cce18ba0d,
        low: 0x04ecc009386763ec,
    },
    Words {
        high: 0x316562fbefb7cfe5,
        middle: 0x4398cb65ab763041,
        low: 0xff45e1180fff7fa7,
    },
    Words {
        high: 0x9399b47a7edcce47,
        middle: 0x05cfceeb917f87a7,
        low: 0x1d1a066f89372a56,
    },
    Words {
        high: 0xa80b45214ea478ca,
        middle: 0x7265a2b2f4110deb,
        low: 0xe6b3277ebeaf361d,
    },
    Words {
        high: 0xe4bc56cc1e2da35d,
        middle: 0xea9b16595ba2933e,
        low: 0xea48444de60712c0,
    },
    Words {
        high: 0xdf2ea7972e5515d0,
        middle: 0x9d317a003ecc1972,
        low: 0x11e1655cd19f0e8b,
    },
    Words {
        high: 0x6f4f0cca5b81a5d4,
        middle: 0xf3c70061b3844ca5,
        low: 0x6337d993fd264504,
    },
    Words {
        high: 0x54ddfd916bf91359,
        middle: 0x846d6c38d6eac6e9,
        low: 0x989ef882cabe594f,
    },
    Words {
        high: 0x186aee7c3b70c8ce,
        middle: 0x1c93d8d37959583c,
        low: 0x94659bb192167d92,
    },
    Words {
        high: 0x23f81f270b087e43,
        middle: 0x6b39b48a1c37d270,
        low: 0x6fccbaa0a58e61d9,
    },
    Words {
        high: 0x8104c9a69a637fe1,
        middle: 0x2d6eb104263e6596,
        low: 0x8d935dd723463428,
    },
    Words {
        high: 0xba9638fdaa1bc96c,
        middle: 0x5ac4dd5d4350efda,
        low: 0x763a7cc614de2863,
    },
    Words {
        high: 0xf6212b10fa9212fb,
        middle: 0xc23a69b6ece3710f,
        low: 0x7ac11ff54c760cbe,
    },
    Words {
        high: 0xcdb3da4bcaeaa476,
        middle: 0xb59005ef898dfb43,
        low: 0x81683ee47bee10f5,
    },
    Words {
        high: 0x884a7748e83ca732,
        middle: 0x393e0ef3fd9e948e,
        low: 0x45d7f00b767ebb17,
    },
    Words {
        high: 0xb3d88613d84411bf,
        middle: 0x4e9462aa98f01ec2,
        low: 0xbe7ed11a41e6a75c,
    },
    Words {
        high: 0xff6f95fe88cdca28,
        middle: 0xd66ad64137438017,
        low: 0xb285b229194e8381,
    },
    Words {
        high: 0xc4fd64a5b8b57ca5,
        middle: 0xa1c0ba18522d0a5b,
        low: 0x492c93382ed69fca,
    },
    Words {
        high: 0x6601b22429de7d07,
        middle: 0xe797bf966824bdbd,
        low: 0xab73744fa81eca3b,
    },
    Words {
        high: 0x5d93437f19a6cb8a,
        middle: 0x903dd3cf0d4a37f1,
        low: 0x50da555e9f86d670,
    },
    Words {
        high: 0x11245092492f101d,
        middle: 0x08c36724a2f9a924,
        low: 0x5c21366dc72ef2ad,
    },
    Words {
        high: 0x2ab6a1c97957a690,
        middle: 0x7f690b7dc7972368,
        low: 0xa788177cf0b6eee6,
    },
    Words {
        high: 0x4a75f77392fec698,
        middle: 0xa285ffbedd0788c6,
        low: 0x42256ee2a9c479f8,
    },
    Words {
        high: 0x71e70628a2867015,
        middle: 0xd52f93e7b869028a,
        low: 0xb98c4ff39e5c65b3,
    },
    Words {
        high: 0x3d5015c5f20fab82,
        middle: 0x4dd1270c17da9c5f,
        low: 0xb5772cc0c6f4416e,
    },
    Words {
        high: 0x06c2e49ec2771d0f,
        middle: 0x3a7b4b5572b41613,
        low: 0x4ede0dd1f16c5d25,
    },
    Words {
        high: 0xa43e321f531c1cad,
        middle: 0x7c2c4edb48bda1f5,
        low: 0xac81eaa677a408d4,
    },
    Words {
        high: 0x9facc3446364aa20,
        middle: 0x0b8622822dd32bb9,
        low: 0x5728cbb7403c149f,
    },
    Words {
        high: 0xd31bd0a933ed71b7,
        middle: 0x937896698260b56c,
        low: 0x5bd3a88418943042,
    },
    Words {
        high: 0xe88921f20395c73a,
        middle: 0xe4d2fa30e70e3f20,
        low: 0xa07a89952f0c2c09,
    },
    Words {
        high: 0xad708cf12143c47e,
        middle: 0x687cf12c931d50ed,
        low: 0x64c5477a229c87eb,
    },
    Words {
        high: 0x96e27daa113b72f3,
        middle: 0x1fd69d75f673daa1,
        low: 0x9f6c666b15049ba0,
    },
    Words {
        high: 0xda556e4741b2a964,
        middle: 0x8728299e59c04474,
        low: 0x939705584dacbf7d,
    },
    Words {
        high: 0xe1c79f1c71ca1fe9,
        middle: 0xf08245c73caece38,
        low: 0x683e24497a34a336,
    },
    Words {
        high: 0x433b499de0a11e4b,
        middle: 0xb6d5404906a779de,
        low: 0x8a61c33efcfcf6c7,
    },
    Words {
        high: 0x78a9b8c6d0d9a8c6,
        middle: 0xc17f2c1063c9f392,
        low: 0x71c8e22fcb64ea8c,
    },
    Words {
        high: 0x341eab2b80507351,
        middle: 0x598198fbcc7a6d47,
        low: 0x7d33811c93ccce51,
    },
    Words {
        high: 0x0f8c5a70b028c5dc,
        middle: 0x2e2bf4a2a914e70b,
        low: 0x869aa00da454d21a,
    },
    Words {
        high: 0xbfedf12dc5fc75d8,
        middle: 0x40dd8ec3245cb2dc,
        low: 0xf44c1cc288ed9995,
    },
    Words {
        high: 0x847f0076f584c355,
        middle: 0x3777e29a41323890,
        low: 0x0fe53dd3bf7585de,
    },
    Words {
        high: 0xc8c8139ba50d18c2,
        middle: 0xaf895671ee81a645,
        low: 0x031e5ee0e7dda103,
    },
    Words {
        high: 0xf35ae2c09575ae4f,
        middle: 0xd8233a288bef2c09,
        low: 0xf8b77ff1d045bd48,
    },
    Words {
        high: 0x51a63441041eafed,
        middle: 0x9e743fa6b1e69bef,
        low: 0x1ae89886568de8b9,
    },
    Words {
        high: 0x6a34c51a34661960,
        middle: 0xe9de53ffd48811a3,
        low: 0xe141b9976115f4f2,
    },
    Words {
        high: 0x2683d6f764efc2f7,
        middle: 0x7120e7147b3b8f76,
        low: 0xedbadaa439bdd02f,
    },
    Words {
        high: 0x1d1127ac5497747a,
        middle: 0x068a8b4d1e55053a,
        low: 0x1613fbb50e25cc64,
    },
    Words {
        high: 0x58e88aaf7641773e,
        middle: 0x8a2480516a466af7,
        low: 0xd2ac355a03b56786,
    },
    Words {
        high: 0x637a7bf44639c1b3,
        middle: 0xfd8eec080f28e0bb,
        low: 0x2905144b342d7bcd,
    },
    Words {
        high: 0x2fcd681916b01a24,
        middle: 0x657058e3a09b7e6e,
        low: 0x25fe77786c855f10,
    },
    Words {
        high: 0x145f994226c8aca9,
        middle: 0x12da34bac5f5f422,
        low: 0xde5756695b1d435b,
    },
    Words {
        high: 0xb6a34fc3b7a3ad0b,
        middle: 0x548d3134fffc43c4,
        low: 0x3c08b11eddd516aa,
    },
    Words {
        high: 0x8d31be9887db1b86,
        middle: 0x23275d6d9a92c988,
        low: 0xc7a1900fea4d0ae1,
    },
    Words {
        high: 0xc186ad75d752c011,
        middle: 0xbbd9e9863521575d,
        low: 0xcb5af33cb2e52e3c,
    },
    Words {
        high: 0xfa145c2ee72a769c,
        middle: 0xcc7385df504fdd11,
        low: 0x30f3d22d857d3277,
    },
    Words {
        high: 0x0e3ce473297e9ba5,
        middle: 0x54948e61f0d06733,
        low: 0x511476768f875699,
    },
    Words {
        high: 0x35ae152819062d28,
        middle: 0x233ee23895beed7f,
        low: 0xaabd5767b81f4ad2,
    },
    Words {
        high: 0x791906c5498ff6bf,
        middle: 0xbbc056d33a0d73aa,
        low: 0xa6463454e0b76e0f,
    },
    Words {
        high: 0x428bf79e79f74032,
        middle: 0xcc6a3a8a5f63f9e6,
        low: 0x5def1545d72f7244,
    },
    Words {
        high: 0xe077211fe89c4190,
        middle: 0x8a3d3f04656a4e00,
        low: 0xbfb0f23251e727b5,
    },
    Words {
        high: 0xdbe5d044d8e4f71d,
        middle: 0xfd97535d0004c44c,
        low: 0x4419d323667f3bfe,
    },
    Words {
        high: 0x9752c3a9886d2c8a,
        middle: 0x6569e7b6afb75a99,
        low: 0x48e2b0103ed71f23,
    },
    Words {
        high: 0xacc032f2b8159a07,
        middle: 0x12c38befcad9d0d5,
        low: 0xb34b9101094f0368,
    },
    Words {
        high: 0xe9399ff19ac39943,
        middle: 0x9e6d80f3becabf18,
        low: 0x77f45fee04dfa88a,
    },
    Words {
        high: 0xd2ab6eaaaabb2fce,
        middle: 0xe9c7ecaadba43554,
        low: 0x8c5d7eff3347b4c1,
    },
    Words {
        high: 0x9e1c7d47fa32f459,
        middle: 0x713958417417ab81,
        low: 0x80a61dcc6bef901c,
    },
    Words {
        high: 0xa58e8c1cca4a42d4,
        middle: 0x06933418117921cd,
        low: 0x7b0f3cdd5c778c57,
    },
    Words {
        high: 0x07725a9d5b214376,
        middle: 0x40c431962b70962b,
        low: 0x9950dbaadabfd9a6,
    },
    Words {
        high: 0x3ce0abc66b59f5fb,
        middle: 0x376e5dcf4e1e1c67,
        low: 0x62f9fabbed27c5ed,
    },
    Words {
        high: 0x7057b82b3bd02e6c,
        middle: 0xaf90e924e1ad82b2,
        low: 0x6e029988b58fe130,
    },
    Words {
        high: 0x4bc549700ba898e1,
        middle: 0xd83a857d84c308fe,
        low: 0x95abb8998217fd7b,
    },
    Words {
        high: 0xfba4e22d7e7c28e5,
        middle: 0xb6ccff1c098b5d29,
        low: 0xe77d0456aeaeb6f4,
    },
    Words {
        high: 0xc03613764e049e68,
        middle: 0xc16693456ce5d765,
        low: 0x1cd425479936aabf,
    },
    Words {
        high: 0x8c81009b1e8d45ff,
        middle: 0x599827aec35649b0,
        low: 0x102f4674c19e8e62,
    },
    Words {
        high: 0xb713f1c02ef5f372,
        middle: 0x2e324bf7a638c3fc,
        low: 0xeb866765f6069229,
    },
    Words {
        high: 0x15ef2741bf9ef2d0,
        middle: 0x68654e799c31741a,
        low: 0x09d9801270cec7d8,
    },
    Words {
        high: 0x2e7dd61a8fe6445d,
        middle: 0x1fcf2220f95ffe56,
        low: 0xf270a1034756db93,
    },
    Words {
        high: 0x62cac5f7df6f9fca,
        middle: 0x873196cb56ec6083,
        low: 0xfe8bc2301ffeff4e,
    },
    Words {
        high: 0x595834acef172947,
        middle: 0xf09bfa923382eacf,
        low: 0x0522e3212866e305,
    },
    Words {
        high: 0x1ca199afcdc12a03,
        middle: 0x7c35f18e47918502,
        low: 0xc19d2dce25f648e7,
    },
    Words {
        high: 0x273368f4fdb99c8e,
        middle: 0x0b9f9dd722ff0f4e,
        low: 0x3a340cdf126e54ac,
    },
    Words {
        high: 0x6b847b19ad304719,
        middle: 0x9361293c8d4c919b,
        low: 0x36cf6fec4ac67071,
    },
    Words {
        high: 0x50168a429d48f194,
        middle: 0xe4cb4565e8221bd7,
        low: 0xcd664efd7d5e6c3a,
    },
    Words {
        high: 0xf2ea5cc30c23f036,
        middle: 0xa29c40ebd22bac31,
        low: 0x2f39a98afb9639cb,
    },
    Words {
        high: 0xc978ad983c5b46bb,
        middle: 0xd5362cb2b745267d,
        low: 0xd490889bcc0e2580,
    },
    Words {
        high: 0x85cfbe756cd29d2c,
        middle: 0x4dc8985918f6b8a8,
        low: 0xd86beba894a6015d,
    },
    Words {
        high: 0xbe5d4f2e5caa2ba1,
        middle: 0x3a62f4007d9832e4,
        low: 0x23c2cab9a33e1d16,
    },
    Words {
        high: 0xde9e1994b7034ba9,
        middle: 0xe78e00c36708994a,
        low: 0xc66fb327fa4c8a08,
    },
    Words {
        high: 0xe50ce8cf877bfd24,
        middle: 0x90246c9a02661306,
        low: 0x3dc69236cdd49643,
    },
    Words {
        high: 0xa9bbfb22d7f226b3,
        middle: 0x08dad871add58dd3,
        low: 0x313df105957cb29e,
    },
    Words {
        high: 0x92290a79e78a903e,
        middle: 0x7f70b428c8bb079f,
        low: 0xca94d014a2e4aed5,
    },
    Words {
        high: 0x30d5dcf876e1919c,
        middle: 0x3927b1a6f2b2b079,
        low: 0x28cb3763242cfb24,
    },
    Words {
        high: 0x0b472da346992711,
        middle: 0x4e8dddff97dc3a35,
        low: 0xd362167213b4e76f,
    },
    Words {
        high: 0x47f03e4e1610fc86,
        middle: 0xd6736914386fa4e0,
        low: 0xdf9975414b1cc3b2,
    },
    Words {
        high: 0x7c62cf1526684a0b,
        middle: 0xa1d9054d5d012eac,
        low: 0x243054507c84dff9,
    },
    Words {
        high: 0x399b621604be494f,
        middle: 0x2d770e5129124161,
        low: 0xe08f9abf7114741b,
    },
    Words {
        high: 0x0209934d34c6ffc2,
        middle: 0x5add62084c7ccb2d,
        low: 0x1b26bbae468c6850,
    },
    Words {
        high: 0x4ebe80a0644f2455,
        middle: 0xc223d6e3e3cf55f8,
        low: 0x17ddd89d1e244c8d,
    },
    Words {
        high: 0x752c71fb543792d8,
        middle: 0xb589baba86a1dfb4,
        low: 0xec74f98c29bc50c6,
    },
    Words {
        high: 0xd7d0a77ac55c937a,
        middle: 0xf3debf34bca86852,
        low: 0x0e2b1efbaf740537,
    },
    Words {
        high: 0xec425621f52425f7,
        middle: 0x8474d36dd9c6e21e,
        low: 0xf5823fea98ec197c,
    },
    Words {
        high: 0xa0f545cca5adfe60,
        middle: 0x1c8a678676757ccb,
        low: 0xf9795cd9c0443da1,
    },
    Words {
        high: 0x9b67b49795d548ed,
        middle: 0x6b200bdf131bf687,
        low: 0x02d07dc8f7dc21ea,
    },
    Words {
        high: 0x2b061fcae001f8e9,
        middle: 0x05d671be9e53a350,
        low: 0x7006c107db656a65,
    },
    Words {
        high: 0x1094ee91d0794e64,
        middle: 0x727c1de7fb3d291c,
        low: 0x8bafe016ecfd762e,
    },
    Words {
        high: 0x5c23fd7c80f095f3,
        middle: 0xea82a90c548eb7c9,
        low: 0x87548325b45552f3,
    },
    Words {
        high: 0x67b10c27b088237e,
        middle: 0x9d28c55531e03d85,
        low: 0x7cfda23483cd4eb8,
    },
    Words {
        high: 0xc54ddaa621e322dc,
        middle: 0xdb7fc0db0be98a63,
        low: 0x9ea2454305051b49,
    },
    Words {
        high: 0xfedf2bfd119b9451,
        middle: 0xacd5ac826e87002f,
        low: 0x650b6452329d0702,
    },
    Words {
        high: 0xb268381041124fc6,
        middle: 0x342b1869c1349efa,
        low: 0x69f007616a3523df,
    },
    Words {
        high: 0x89fac94b716af94b,
        middle: 0x43817430a45a14b6,
        low: 0x925926705dad3f94,
    },
    Words {
        high: 0xcc03644853bcfa0f,
        middle: 0xcf2f7f2cd0497b7b,
        low: 0x56e6e89f503d9476,
    },
    Words {
        high: 0xf791951363c44c82,
        middle: 0xb8851375b527f137,
        low: 0xad4fc98e67a5883d,
    },
    Words {
        high: 0xbb2686fe334d9715,
        middle: 0x207ba79e1a946fe2,
        low: 0xa1b4aabd3f0dace0,
    },
    Words {
        high: 0x80b477a503352198,
        middle: 0x57d1cbc77ffae5ae,
        low: 0x5a1d8bac0895b0ab,
    },
    Words {
        high: 0x2248a124925e203a,
        middle: 0x1186ce4945f35248,
        low: 0xb8426cdb8e5de55a,
    },
    Words {
        high: 0x19da507fa22696b7,
        middle: 0x662ca210209dd804,
        low: 0x43eb4dcab9c5f911,
    },
    Words {
        high: 0x556d4392f2af4d20,
        middle: 0xfed216fb8f2e46d1,
        low: 0x4f102ef9e16dddcc,
    },
    Words {
        high: 0x6effb2c9c2d7fbad,
        middle: 0x89787aa2ea40cc9d,
        low: 0xb4b90fe8d6f5c187,
    },
    Words {
        high: 0x94ebeee725fd8d31,
        middle: 0x450bff7dba0f118c,
        low: 0x844addc55388f3f0,
    },
    Words {
        high: 0xaf791fbc15853bbc,
        middle: 0x32a19324df619bc0,
        low: 0x7fe3fcd46410efbb,
    },
    Words {
        high: 0xe3ce0c51450ce02b,
        middle: 0xaa5f27cf70d20515,
        low: 0x73189fe73cb8cb66,
    },
    Words {
        high: 0xd85cfd0a757456a6,
        middle: 0xddf54b9615bc8f59,
        low: 0x88b1bef60b20d72d,
    },
    Words {
        high: 0x7aa02b8be41f5704,
        middle: 0x9ba24e182fb538bf,
        low: 0x6aee59818de882dc,
    },
    Words {
        high: 0x4132dad0d467e189,
        middle: 0xec0822414adbb2f3,
        low: 0x91477890ba709e97,
    },
    Words {
        high: 0x0d85c93d84ee3a1e,
        middle: 0x74f696aae5682c26,
        low: 0x9dbc1ba3e2d8ba4a,
    },
    Words {
        high: 0x36173866b4968c93,
        middle: 0x035cfaf38006a66a,
        low: 0x66153ab2d540a601,
    },
    Words {
        high: 0x73ee956596408fd7,
        middle: 0x8ff2f1eff415c9a7,
        low: 0xa2aaf45dd8d00de3,
    },
    Words {
        high: 0x487c643ea638395a,
        middle: 0xf8589db6917b43eb,
        low: 0x5903d54cef4811a8,
    },
    Words {
        high: 0x04cb77d3f6b1e2cd,
        middle: 0x60a6295d3ec8dd3e,
        low: 0x55f8b67fb7e03575,
    },
    Words {
        high: 0x3f598688c6c95440,
        middle: 0x170c45045ba65772,
        low: 0xae51976e8078293e,
    },
    Words {
        high: 0x9da5500957a255e2,
        middle: 0x515b408a61afe094,
        low: 0x4c0e701906b07ccf,
    },
    Words {
        high: 0xa637a15267dae36f,
        middle: 0x26f12cd304c16ad8,
        low: 0xb7a7510831286084,
    },
    Words {
        high: 0xea80b2bf375338f8,
        middle: 0xbe0f9838ab72f40d,
        low: 0xbb5c323b69804459,
    },
    Words {
        high: 0xd11243e4072b8e75,
        middle: 0xc9a5f461ce1c7e41,
        low: 0x40f5132a5e185812,
    },
    Words {
        high: 0x6173e8b972ff3e71,
        middle: 0xa7538e0043542b96,
        low: 0x3223afe572a1139d,
    },
    Words {
        high: 0x5ae119e2428788fc,
        middle: 0xd0f9e259263aa1da,
        low: 0xc98a8ef445390fd6,
    },
    Words {
        high: 0x16560a0f120e536b,
        middle: 0x480756b289893f0f,
        low: 0xc571edc71d912b0b,
    },
    Words {
        high: 0x2dc4fb542276e5e6,
        middle: 0x3fad3aebece7b543,
        low: 0x3ed8ccd62a093740,
    },
    Words {
        high: 0x8f382dd5b31de444,
        middle: 0x79fa3f65d6ee02a5,
        low: 0xdc872ba1acc162b1,
    },
    Words {
        high: 0xb4aadc8e836552c9,
        middle: 0x0e50533cb38088e9,
        low: 0x272e0ab09b597efa,
    },
    Words {
        high: 0xf81dcf63d3ec895e,
        middle: 0x96aee7d71c33163c,
        low: 0x2bd56983c3f15a27,
    },
    Words {
        high: 0xc38f3e38e3943fd3,
        middle: 0xe1048b8e795d9c70,
        low: 0xd07c4892f469466c,
    },
    Words {
        high: 0x8676933bc1423c97,
        middle: 0x6daa80920d4ef3bd,
        low: 0x14c3867df9f9ed8e,
    },
    Words {
        high: 0xbde46260f13a8a1a,
        middle: 0x1a00eccb682079f1,
        low: 0xef6aa76cce61f1c5,
    },
    Words {
        high: 0xf153718da1b3518d,
        middle: 0x82fe5820c793e724,
        low: 0xe391c45f96c9d518,
    },
    Words {
        high: 0xcac180d691cbe700,
        middle: 0xf5543479a2fd6d68,
        low: 0x1838e54ea151c953,
    },
    Words {
        high: 0x683d565700a0e6a2,
        middle: 0xb30331f798f4da8e,
        low: 0xfa67023927999ca2,
    },
    Words {
        high: 0x53afa70c30d8502f,
        middle: 0xc4a95daefd9a50c2,
        low: 0x01ce2328100180e9,
    },
    Words {
        high: 0x1f18b4e160518bb8,
        middle: 0x5c57e9455229ce17,
        low: 0x0d35401b48a9a434,
    },
    Words {
        high: 0x248a45ba50293d35,
        middle: 0x2bfd851c3747445b,
        low: 0xf69c610a7f31b87f,
    },
    Words {
        high: 0x44491300bb805d3d,
        middle: 0xf61171df2dd7eff5,
        low: 0x1331189426432f61,
    },
    Words {
        high: 0x7fdbe25b8bf8ebb0,
        middle: 0x81bb1d8648b965b9,
        low: 0xe898398511db332a,
    },
    Words {
        high: 0x336cf1b6db713027,
        middle: 0x1945a96de70afb6c,
        low: 0xe4635ab6497317f7,
    },
    Words {
        high: 0x08fe00edeb0986aa,
        middle: 0x6eefc53482647120,
        low: 0x1fca7ba77eeb0bbc,
    },
    Words {
        high: 0xaa02d66c7a628708,
        middle: 0x28b8c0bab86dc6c6,
        low: 0xfd959cd0f8235e4d,
    },
    Words {
        high: 0x919027374a1a3185,
        middle: 0x5f12ace3dd034c8a,
        low: 0x063cbdc1cfbb4206,
    },
    Words {
        high: 0xdd2734da1a93ea12,
        middle: 0xc7ec180872b0d25f,
        low: 0x0ac7def2971366db,
    },
    Words {
        high: 0xe6b5c5812aeb5c9f,
        middle: 0xb046745117de5813,
        low: 0xf16effe3a08b7a90,
    },
    Words {
        high: 0xa34c6882083d5fdb,
        middle: 0x3ce87f4d63cd37de,
        low: 0x35d1310cad1bd172,
    },
    Words {
        high: 0x98de99d93845e956,
        middle: 0x4b42131406a3bd92,
        low: 0xce78101d9a83cd39,
    },
    Words {
        high: 0xd4698a3468cc32c1,
        middle: 0xd3bca7ffa9102347,
        low: 0xc283732ec22be9e4,
    },
    Words {
        high: 0xeffb7b6f58b4844c,
        middle: 0xa416cba6cc7ea90b,
        low: 0x392a523ff5b3f5af,
    },
    Words {
        high: 0x4d07adeec9df85ee,
        middle: 0xe241ce28f6771eed,
        low: 0xdb75b548737ba05e,
    },
    Words {
        high: 0x76955cb5f9a73363,
        middle: 0x95eba271931994a1,
        low: 0x20dc945944e3bc15,
    },
    Words {
        high: 0x3a224f58a92ee8f4,
        middle: 0x0d15169a3caa0a74,
        low: 0x2c27f76a1c4b98c8,
    },
    Words {
        high: 0x01b0be0399565e79,
        middle: 0x7abf7ac359c48038,
        low: 0xd78ed67b2bd38483,
    },
    Words {
        high: 0xb1d1155eec82ee7d,
        middle: 0x144900a2d48cd5ef,
        low: 0xa5586ab4076acf0c,
    },
    Words {
        high: 0x8a43e405dcfa58f0,
        middle: 0x63e36cfbb1e25fa3,
        low: 0x5ef14ba530f2d347,
    },
    Words {
        high: 0xc6f4f7e88c738367,
        middle: 0xfb1dd8101e51c176,
        low: 0x520a2896685af79a,
    },
    Words {
        high: 0xfd6606b3bc0b35ea,
        middle: 0x8cb7b4497b3f4b3a,
        low: 0xa9a309875fc2ebd1,
    },
    Words {
        high: 0x5f9ad0322d603448,
        middle: 0xcae0b1c74136fcdc,
        low: 0x4bfceef0d90abe20,
    },
    Words {
        high: 0x640821691d1882c5,
        middle: 0xbd4add9e24587690,
        low: 0xb055cfe1ee92a26b,
    },
    Words {
        high: 0x28bf32844d915952,
        middle: 0x25b469758bebe845,
        low: 0xbcaeacd2b63a86b6,
    },
    Words {
        high: 0x132dc3df7de9efdf,
        middle: 0x521e052cee856209,
        low: 0x47078dc381a29afd,
    },
    Words {
        high: 0x56d46edc5f3fec9b,
        middle: 0xdeb00e309a960dc4,
        low: 0x83b8432c8c32311f,
    },
    Words {
        high: 0x6d469f876f475a16,
        middle: 0xa91a6269fff88788,
        low: 0x7811623dbbaa2d54,
    },
    Words {
        high: 0x21f18c6a3fce8181,
        middle: 0x31e4d682504b195d,
        low: 0x74ea010ee3020989,
    },
    Words {
        high: 0x1a637d310fb6370c,
        middle: 0x464ebadb35259311,
        low: 0x8f43201fd49a15c2,
    },
    Words {
        high: 0xb89fabb09edd36ae,
        middle: 0x0019bf550f2c24f7,
        low: 0x6d1cc76852524033,
    },
    Words {
        high: 0x830d5aebaea58023,
        middle: 0x77b3d30c6a42aebb,
        low: 0x96b5e67965ca5c78,
    },
    Words {
        high: 0xcfba4906fe2c5bb4,
        middle: 0xef4d67e7c5f1306e,
        low: 0x9a4e854a3d6278a5,
    },
    Words {
        high: 0xf428b85dce54ed39,
        middle: 0x98e70bbea09fba22,
        low: 0x61e7a45b0afa64ee,
    },
];

// The table by value, to be lent: a constant that is indexed is built anew at each read.
pub fn remainders() -> [Words; 256]
    ensures { Table result }
{
    TABLE
}
