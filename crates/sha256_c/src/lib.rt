// SHA-256 and HMAC-SHA-256 for C to call: a slice is passed as a pointer and a length.
#![tactic(auto)]

ghost use Rattle.std.specs.Prelude.{◌≡◌};
ghost use Rattle.sha256.specs.Sha256.{digest};
ghost use Rattle.sha256.specs.Hmac.{hmac};

// void sha256_digest(const uint8_t *text, size_t text_len, uint8_t out[32]);
#[unsafe(no_mangle)]
pub extern "C" fn sha256_digest(text: &[u8], out: &mut [u8; 32])
    ensures { out.new ≡ digest text.now }
{
    *out = sha256::sha256(text);
}

// void sha256_hmac(const uint8_t *key, size_t key_len, const uint8_t *text, size_t text_len, uint8_t out[32]);
#[unsafe(no_mangle)]
pub extern "C" fn sha256_hmac(key: &[u8], text: &[u8], out: &mut [u8; 32])
    ensures { out.new ≡ hmac key.now text.now }
{
    *out = sha256::hmac_sha256(key, text);
}
